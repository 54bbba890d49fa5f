// What document 02 moves of scores, distances and decoding, and what it leaves: laws over the calls.
#![tactic(auto)]
