// Samples (a) to (k) of document 01 as one theorem: statements (specs/) and proofs (proofs/), and no code.
#![tactic(auto)]
