// The join of two sessions: one errand, two people.
#![tactic(auto)]

mod alike;
pub mod join;
