//! Where obligations come from, and what they ask, in words.
//!
//! An obligation is what its definition says. What is said here of it is found by its name and by the forms of substitutions, and where
//! the count of its neighbours does not agree with these, no more is said than its clause.
#![tactic(auto)]

mod asked;
mod clause;
mod component;
mod concern;
mod defined;
mod leaf;
mod origin;
mod words;

pub use component::Component;
pub use concern::{Concern, concern_of};
pub use origin::{Origin, origins};
