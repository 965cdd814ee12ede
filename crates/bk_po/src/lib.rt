//! The proof obligations of a development.
#![tactic(auto)]

pub mod clause;
pub mod error;
mod flattening;
mod goals;
mod hypotheses;
pub mod laws;
mod limits;
mod list;
pub mod obligation;
mod splits;
pub mod table;
mod whole;

pub use error::PoFault;
pub use obligation::{Obligation, obligations};
pub use table::obligation_table;
