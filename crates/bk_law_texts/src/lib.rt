//! The laws in words: their names, the terms that they take in order, and what they say. For words alone; what a law means is told by
//! its row of the laws.
#![tactic(auto)]

mod table;
mod text;

pub use text::{LawText, text_named, text_of};
