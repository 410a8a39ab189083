// What the calls of one office share, and those that ask for no entry: need, open, fresh, settings.
#![tactic(auto)]

pub mod code;
pub mod entries;
pub mod need;
pub mod note;
pub mod open;
pub mod settings;
