//! The signs and words of the B notation, each with a number and its level as an operator, and rows of laws.
#![tactic(auto)]

mod law;
mod row;
mod search;
pub mod sign;
mod table;
pub mod word;

pub use law::{Law, Pat};
pub use row::{NO_OPERATOR, OpRow};
pub use search::find;
pub use table::{signs, words};
