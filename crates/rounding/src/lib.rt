// How far rounded f32 arithmetic can lie from exact arithmetic: definitions and laws only, cited by every crate that states an error.
#![tactic(auto)]
