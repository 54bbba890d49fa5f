// How the C side speaks: answers leave by lent numbers, and numbers stand for the cases of an enum.
#![tactic(auto)]

pub mod answers;
pub mod codes;
