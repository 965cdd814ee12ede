//! The program `bkit` over any shelf and any sink, and the laws of its definitions.
#![tactic(auto)]

pub mod laws;
mod program;

pub use program::{bkit, exit_code};
