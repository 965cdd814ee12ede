//! Components of the B notation, read from tokens.
#![tactic(auto)]

mod clause;
mod entries;
mod header;
mod parts;
mod plain;
mod reader;

pub use reader::component;
