// The player of a script: one line over lent buffers.
#![tactic(auto)]

pub mod ahead;
pub mod board;
pub mod opening;
pub mod play;
pub mod queue;
