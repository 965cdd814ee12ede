//! Places in texts, as people name them: bytes as lines and columns.
#![tactic(auto)]

mod line;
mod place;

pub use line::line_text;
pub use place::{Place, place_of};
