// What a host program in C or Rust calls, over the crates below; crate host_c exports it, and inlines what it calls here. include/burial_register.h declares it.
#![tactic(auto)]

pub mod answer;
pub mod frames;
pub mod in_place;
pub mod offices;
pub mod sessions;
pub mod tokens;
pub mod version;
