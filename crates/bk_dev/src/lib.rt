//! Developments: a machine, its chain of refinements and at most one implementation.
#![tactic(auto)]

pub mod arrays;
pub mod clues;
pub mod development;
pub mod kind;
pub mod laws;

pub use arrays::{has_scalars, indices};
pub use clues::{Found, clue_in, linked};
pub use development::{Body, DEFAULT_MAX, Development, EnumSet, Level, OpHead};
pub use kind::{Home, Kind};
