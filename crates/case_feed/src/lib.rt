// A case read part by part from standard input: laws of a turn and of all turns (proofs/), which the programs over a case cite; it has no code.

#![tactic(auto)]
