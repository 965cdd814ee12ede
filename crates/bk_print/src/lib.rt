//! Scripts of proof as text: rules as they are read back, and scripts for the obligations that are open.
#![tactic(auto)]

mod certificate;
mod facts;
mod law;
pub mod laws;
mod name;
mod outcome;
mod parts;
mod place;
mod printing;
mod rule;
mod searching;
mod term;
mod trial;
mod word;

pub use outcome::{Outcome, found_text};
pub use printing::print;
pub use searching::search_all;
