// What a caller in C can tell by a number alone: laws over what the C functions tell.
#![tactic(auto)]
