//! What is true before a substitution: the box and the diamond.
#![tactic(auto)]

pub mod error;
pub mod evaluation;
pub mod laws;
mod quantifiers;
pub mod weakest;

pub use error::WpFault;
pub use evaluation::guarded;
pub use weakest::{boxed, diamond};
