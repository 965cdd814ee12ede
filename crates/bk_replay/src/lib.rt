//! How far a list of rules goes on a sequent, and what is left open there.
#![tactic(auto)]

pub mod laws;
mod standing;

pub use standing::{Standing, furthest, open_after, put_first, verdict_of};
