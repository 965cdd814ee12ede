//! Why a rule of proof does not fit a sequent, and why a written rule means nothing, in words.
//!
//! What is said here is no part of a proof: whether a rule fits is told by the kernel alone.
#![tactic(auto)]

mod certificate;
mod change;
mod closing;
mod compare;
mod fact;
mod law;
mod misfit;
mod naming;
mod near;
mod place;
mod shape;
mod unread;
mod within;
mod words;

pub use misfit::write_misfit;
pub use near::nearest;
pub use unread::{Written, write_unread};
pub use words::Words;
