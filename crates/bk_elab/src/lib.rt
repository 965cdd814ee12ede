//! From a written component to one more level of a development.
#![tactic(auto)]

mod levels;
mod room;
mod static_fault;

pub use bk_elab_terms::{ElabFault, formula};
pub use levels::{level, passes_limit_of_names};
