// Document 02, C-17: what is seen outside the house does not tell its reserves. A claim about the machine (specs/) and its proof (proofs/), which the crates above
// cite; it has no code.

#![tactic(auto)]
