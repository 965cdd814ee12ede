//! Types of formulas: what a formula stands for, the type that it gives, and whether it takes a type.
#![tactic(auto)]

pub mod error;
mod leaf;
mod operator;
mod part;
pub mod role;
mod same;
pub mod typing;

pub use error::TypeFault;
pub use role::Role;
pub use typing::{check, role_of, synth};
