//! A project's texts, read as a development.
#![tactic(auto)]

mod chain;
pub mod laws;
mod project_file;
mod range;
mod reading;
mod refusal;

pub use project_file::{LineKind, ProjectLine, lines};
pub use reading::project;
pub use refusal::Refusal;
