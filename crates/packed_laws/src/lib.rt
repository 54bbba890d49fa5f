// Round trips of a record, how far linear radii move, what 16 says of them, empty parts and withdrawn positions: laws over the reader and the writer.
#![tactic(auto)]
