//! What it means that translated code follows its abstract machine, and sessions over translated code.
#![tactic(auto)]

pub mod laws;
mod session;

pub use session::Session;
