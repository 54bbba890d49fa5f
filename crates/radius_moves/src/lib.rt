// How far a radius moves by its linear form: specs/Moves.antt states it, and proofs/Moves.antt proves it. No code.
#![tactic(auto)]
