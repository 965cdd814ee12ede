//! The translation of a development's implementation to stack code.
#![tactic(auto)]

mod array;
mod error;
mod fields;
mod image;
mod jumps;
pub mod laws;
mod leaf;
mod names;
mod statement;
mod value;

pub use error::GenFault;
pub use image::translate;
