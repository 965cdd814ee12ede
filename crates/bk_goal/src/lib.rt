//! What is open after the rules of a script, as a text, and why the next rule does not fit.
#![tactic(auto)]

mod around;
mod asked;
mod brought;
mod goal;
mod names;
mod sequents;
mod written;

pub use asked::{Asked, Found};
pub use brought::Brought;
pub use goal::{GoalText, goal_text};
pub use names::{Note, notes};
pub use sequents::sequents_text;
