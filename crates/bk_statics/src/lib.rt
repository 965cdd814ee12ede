//! Static semantics of a component: which level of a development it makes, or which fault is reported.
#![tactic(auto)]

pub mod laws;
