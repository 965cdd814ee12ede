//! Sequences: the formulas that their words and signs stand for, and the laws of sequences as rewriting rules.
#![tactic(auto)]

pub mod expansion;
pub mod fault;
mod instances;
pub mod laws;
mod making;
mod row;
mod rows;
mod sides;
mod words;

pub use expansion::expand;
pub use fault::SeqFault;
pub use instances::instance;
