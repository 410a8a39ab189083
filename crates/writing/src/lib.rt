// The call of one office that writes, and what it would say.
#![tactic(auto)]

pub mod forecast;
mod send;
pub mod write;
