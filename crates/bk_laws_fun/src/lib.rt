//! Laws of relations and functions: formulas that mean the same, as rewriting rules.
#![tactic(auto)]

mod instances;
pub mod laws;
mod table;

pub use instances::instance;
