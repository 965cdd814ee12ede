//! What formulas are asked: that they are defined and, where they are executed, that they fit the machine.
#![tactic(auto)]

pub mod checking;
pub mod definedness;
mod domains;
pub mod joining;
pub mod laws;
mod operands;
mod ranges;

pub use checking::{checked, index_check};
pub use definedness::{defined, defined_under};
pub use joining::{all_over, both, is_true, nothing, where_false, where_true};
