//! Printed formulas in lines: a long one is broken before its operators and indented by its brackets.
#![tactic(auto)]

mod bracket;
mod group;
mod layout;
mod same;

pub use layout::laid_out;
