//! Scripts that are found: rules that derive a sequent, by the shape of its goal and by linear arithmetic.
#![tactic(auto)]

mod adding;
mod arithmetic;
mod closing;
mod easy;
pub mod finding;
mod ordering;
mod supposing;
mod variables;
mod views;

pub use finding::find;
