// The score of what a record holds, its exact score and the bound between them: definitions and laws.
#![tactic(auto)]
