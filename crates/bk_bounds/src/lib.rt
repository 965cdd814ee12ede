//! Room for numbers: what the limits on texts and on obligations say of how many variables there are.
#![tactic(auto)]

pub mod laws;
