//! Formulas as text that reads back as the same formulas, and types as text.
#![tactic(auto)]

mod binder;
mod form;
pub mod laws;
mod name;
pub mod notation;
mod ty;

pub use form::show;
pub use ty::show_type;
