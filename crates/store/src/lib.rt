// The lent store of an office: reading it, whether it is sound, and the changes that the calls make.
#![tactic(auto)]

mod bits;
pub mod clock;
pub mod current;
pub mod empty;
pub mod hold;
pub mod layout;
pub mod reveal;
pub mod same;
pub mod sound;
