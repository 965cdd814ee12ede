//! Sequents: hypotheses and a goal, when a sequent is valid, and goals taken apart; and places in formulas.
#![tactic(auto)]

pub mod laws;
pub mod path;
pub mod sequent;
pub mod splitting;

pub use path::{at, numbered, put};
pub use sequent::Sequent;
pub use splitting::{add_conjuncts, split};
