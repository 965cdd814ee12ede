//! Arithmetic on formulas: sums of literals, certificates that a goal follows by linear arithmetic, terms multiplied out, and the
//! cases of a term in an interval.
#![tactic(auto)]

mod comparison;
mod decision;
mod error;
mod interval;
mod joining;
pub mod laws;
mod multiplying;
mod occurrence;
mod reading;
mod stating;
mod sum;

pub use decision::linear;
pub use error::ArithFault;
pub use interval::cases;
pub use multiplying::polynomial;
pub use stating::{atoms, facts, is_comparison};
pub use sum::closed;
