//! The static semantics of components, phase by phase: names are resolved once, and then each rule is said of one substitution or term.
#![tactic(auto)]

pub mod laws;
