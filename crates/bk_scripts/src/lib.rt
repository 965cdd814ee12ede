//! The rules of proof that written scripts stand for.
#![tactic(auto)]

mod around;
mod brought;
mod found;
mod law;
pub mod laws;
mod part;
mod rule;
mod script;
mod sight;

pub use bk_p_proof::{ScriptFault, Scripts, scripts};
pub use script::{ground, read_in};
