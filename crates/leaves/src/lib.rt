// What is promised of the leaves beyond their contracts, as one claim: specs/Leaves.antt states it, and proofs/Holds.antt proves it. No code.
#![tactic(auto)]
