// The calls of one office that read: one plot, several at once.
#![tactic(auto)]

mod answer;
mod best;
pub mod joint;
pub mod read;
mod shown;
