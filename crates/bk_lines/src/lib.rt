//! The lines of a text of bytes, one after another.
#![tactic(auto)]

mod line;

pub use line::{first_line, is_skipped};
