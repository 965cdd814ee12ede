//! The kernel of proof: which sequents need no proof, the rules of proof, and their replay.
#![tactic(auto)]

mod algebra;
mod binding;
mod branch;
mod closing;
mod deciding;
pub mod error;
mod instances;
pub mod laws;
mod listing;
mod lists;
mod logic;
mod membership;
mod next;
pub mod obvious;
mod parts;
mod replaying;
mod rewriting;
mod roles;
pub mod rule;
pub mod soundness;
mod stepping;
mod views;

pub use error::StepFault;
pub use obvious::is_obvious;
pub use replaying::{Verdict, replay};
pub use rule::{Place, Rule};
pub use stepping::step;
