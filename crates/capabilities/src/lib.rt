// Capability sets and the capabilities' numbers: the ground that every other crate stands on.
//
// Every function is proved, for every argument: none has a `requires`. The crate assumes nothing.
#![tactic(auto)]

pub mod header;
pub mod sets;
