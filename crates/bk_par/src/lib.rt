//! The rewriting of `||` by copies: one substitution after another, and what both sides of a `||` write.
#![tactic(auto)]

mod copies;
pub mod error;
pub mod flattening;
pub mod laws;
mod overlap;
mod renaming;

pub use error::ParFault;
pub use flattening::flatten;
