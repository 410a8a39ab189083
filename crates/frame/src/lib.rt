// Entries, sessions, frames and tokens; frames and tokens as rows of words.
#![tactic(auto)]

pub mod entry;
pub mod reader;
pub mod refusal;
pub mod session;
pub mod token;
mod word;
pub mod writer;
