// Reading a chain, the one walk along the chains, and the usable calls, each as one packed word: by fragment (rows) and by variant (piles).
#![tactic(auto)]

pub mod grouped;
pub mod piles;
pub mod reader;
pub mod row;
pub mod rows;
