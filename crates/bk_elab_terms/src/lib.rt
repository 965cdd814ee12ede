//! What written terms mean: formulas over the names in scope, or the first of their faults.
#![tactic(auto)]

pub mod binder;
pub mod blame;
mod dollar;
pub mod error;
mod form;
pub mod in_scope;
mod kept;
pub mod laws;
mod made;
mod operator;
pub mod outcome;
mod part;
pub mod partial;
mod reading;
mod shape;
pub mod sight;
pub mod visible;
mod word;
mod written;

pub use blame::{Fault, earlier};
pub use error::ElabFault;
pub use in_scope::formula;
pub use outcome::{Asked, no_type};
pub use sight::{Standing, Visible};
pub use visible::Sight;
