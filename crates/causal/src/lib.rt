// What a causal protocol needs of numbers: sets of ids, vector clocks, rank; and words copied from row to row.
#![tactic(auto)]

pub mod clock;
pub mod rank;
pub mod row;
pub mod set;
