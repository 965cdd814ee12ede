//! Elaboration of substitutions, and of the level that a component adds to a development.
#![tactic(auto)]

mod elaborated;
pub mod made;
