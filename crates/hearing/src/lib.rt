// The call of one office that hears a frame, how the frame goes on, and what the call would say.
#![tactic(auto)]

pub mod forecast;
mod forward;
pub mod receive;
