//! Text files, and the tokens of all of them.
#![tactic(auto)]

mod cutting;
mod fault;
pub mod laws;

pub use cutting::cut;
pub use fault::FileFault;
