// The case of the sweeps in lent slices: each read's likelihoods and the totals, from the rows.
#![tactic(auto)]

pub mod likelihoods;
pub mod pair;
pub mod sweep_case;
pub mod totals;
