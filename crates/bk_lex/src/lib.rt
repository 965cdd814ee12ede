//! The lexis of the B notation: a text, cut into tokens.
#![tactic(auto)]

mod fault;
mod gap;
pub mod laws;
mod lexer;
mod number;
mod part;
mod table;

pub use fault::LexFault;
pub use lexer::tokens;
