// Pieces of an input, fields or lines, written one by one as other bytes: definitions and laws (specs/ and proofs/), which the crates above cite; it has no code.

#![tactic(auto)]
