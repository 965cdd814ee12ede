//! The B0 check: whether what an implementation does can be executed.
#![tactic(auto)]

pub mod arrays;
pub mod executable;
