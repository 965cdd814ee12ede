//! Names in the order in which they were first seen.
//!
//! [`Names`] gives each text a number, its place in that order from 0 on, and gives a text that it has seen the
//! same number again.
#![tactic(auto)]

mod error;
mod names;

pub use error::Memory;
pub use names::Names;
