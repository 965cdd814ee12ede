//! Laws as rows of a table: patterns of formulas in which letters stand for what is picked, the instance of a row at some
//! picks, and that a table of true rows has true instances.
#![tactic(auto)]

mod build;
mod instances;
mod kind;
pub mod laws;
mod macros;
pub mod op;

pub use instances::{Found, instance};
pub use kind::{Kind, kind_of};
