//! How far a text is the front of a component or a proof file, and what could stand there.
#![tactic(auto)]

mod reader;
mod rows;
mod texts;

pub use reader::{Furthest, Reading, furthest_reading};
pub use rows::{COMPONENT, PROOF_FILE, Symbol, part_words};
