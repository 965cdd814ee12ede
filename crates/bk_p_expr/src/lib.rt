//! Terms of the B notation, read from tokens.
#![tactic(auto)]

mod bars;
mod divider;
mod fault;
mod free;
mod front;
mod opening;
mod piece;
mod printed_type;
mod reader;
mod terms;

pub use fault::SynFault;
pub use free::{Conjunct, conjuncts};
pub use piece::{Piece, Terms};
pub use reader::{front_term, term};
