// The static library for host programs: the functions of crate `host` under their names in C, each with the same promise.
// include/burial_register.h declares them.
#![tactic(auto)]

pub mod frames;
pub mod in_place;
pub mod offices;
pub mod sessions;
pub mod tokens;
pub mod version;
