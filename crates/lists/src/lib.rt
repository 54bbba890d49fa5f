// Lists in parts of one length, and the first part of an array that is lent: definitions and laws only, cited by every crate that cuts a list into
// parts or joins one from them, or lends a part of scratch.
#![tactic(auto)]
