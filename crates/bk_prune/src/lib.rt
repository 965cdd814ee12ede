//! Scripts without rules whose results nothing uses.
#![tactic(auto)]

mod edit;
mod file;
mod needs;
mod numbering;
mod plan;
mod states;
mod steps;
mod uses;
mod work;

pub use file::{Pruned, prune_file};
