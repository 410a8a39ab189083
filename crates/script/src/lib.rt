// The lines of a script and the replies to them, as bytes.
#![tactic(auto)]

mod field;
pub mod line;
pub mod pending;
mod put;
pub mod reply;
