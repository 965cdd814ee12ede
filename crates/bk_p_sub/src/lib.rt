//! Substitutions of the B notation, read from tokens.
#![tactic(auto)]

mod branches;
mod call;
mod defining;
mod front;
mod opening;
mod reader;
mod statement;
mod substitutions;
mod target;
mod term;

pub use front::{after_sign, after_word, declared, first_token, names, start_of};
pub use reader::{front_body, front_substitution, substitution};
pub use statement::Statement;
