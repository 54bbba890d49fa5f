// Document 01's worked cases as one table: definitions and laws.
#![tactic(auto)]
