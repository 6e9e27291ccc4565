// Document 01's machine is definitions and laws (specs/ and proofs/), which the crates above cite; it has no code.

#![tactic(auto)]
