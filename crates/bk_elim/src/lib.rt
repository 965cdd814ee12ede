//! Small systems of linear inequalities that contradict each other, found by elimination of their atoms.
#![tactic(auto)]

mod bounds;
mod elimination;
mod row;
mod system;

pub use system::refute;
