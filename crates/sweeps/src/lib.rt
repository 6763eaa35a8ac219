// The theory of sweeps: definitions (specs/) and proofs (proofs/), and no code.
#![tactic(auto)]
