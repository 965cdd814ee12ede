//! B0: the types of its expressions, the cells of its variables, its translation as lists of instructions, and the executable part
//! of an implementation.
#![tactic(auto)]

mod cells;
mod copies;
pub mod laws;
mod slot;
mod unit;

pub use cells::index_count;
pub use slot::Slot;
pub use unit::{B0Unit, b0};
