// The merged type's table and marks: pairs of states, one of each of two output types, and the buffers that are filled with what the two
// types say of them.
#![tactic(auto)]

pub mod filling;
pub mod pairs;
