//! Generalized substitutions: what they write, how they run, and where they end.
#![tactic(auto)]

pub mod laws;
pub mod substitution;
pub mod variables;

pub use substitution::{Sub, SubNode};
pub use variables::{reads, writes};
