//! What the words of the command line ask for: a verb with its files, and the fuel.
#![tactic(auto)]

mod command;
pub mod laws;
mod task;
mod words;

pub use command::Command;
pub use task::asked;
pub use words::WordsFault;
