// The readings and the writing of an office with the session lent: "The errand is lent to the call and holds its new state afterwards".
#![tactic(auto)]

pub mod calls;
