// Values that are updated as reads come and go are those of the case taken afresh, a departure gives back the records that the arrival took, and an
// arrival finds no room exactly when records are too few: statements (specs/) and proofs (proofs/), and no code.
#![tactic(auto)]
