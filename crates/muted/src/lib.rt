// Muted reads: what holds of one, and that every operation answers as on the case of the reference run, in which the muted reads' calls have both
// qualities 0: definitions and statements (specs/) and proofs (proofs/), and no code.
#![tactic(auto)]
