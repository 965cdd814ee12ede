//! What the words of `bkproof` ask for: a verb with its files and its options.
#![tactic(auto)]

mod task;
mod verbs;
mod words;

pub use task::{ReportForm, Task};
pub use words::asked;
