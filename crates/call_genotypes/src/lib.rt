// The sweeps in code: scores, visits, sweeps and the run over lent slices (document 01, section 6).
#![tactic(auto)]

pub mod reads;
pub mod run;
mod score;
mod visit;
