// The static library: each operation as a C function over lent slices, whose answer is a struct of numbers. It requires
// nothing of its caller but what no contract can say: true lengths, and no overlap (capi/condorbed.h).
// One file per operation. A new one joins with its file here, its promise in specs/Promises.antt, its answer's laws in proofs/Numbers.antt where
// it returns values, and its lines in each file of capi/.
#![tactic(auto)]

mod answers;
mod check;
mod filter;
mod flist;
mod inputs;
mod late;
mod nohap;
mod orders;
mod phase;
mod priors;
mod round;
