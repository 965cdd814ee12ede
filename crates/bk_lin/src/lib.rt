//! Certificates that linear inequalities over whole numbers contradict each other.
#![tactic(auto)]

mod certificate;
mod fact;
mod line;
mod multiple;
mod standing;

pub use certificate::check;
pub use fact::{CertFault, Fact, Line};
