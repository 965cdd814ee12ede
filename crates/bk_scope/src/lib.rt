//! The names of a written component, their numbers, and where each is in scope.
#![tactic(auto)]

pub mod above;
pub mod binders;
pub mod bodies;
pub mod component;
pub mod faults;
pub mod number;
pub mod pairs;
pub mod places;
pub mod plan;
pub mod sight;
pub mod types;
pub mod way;
