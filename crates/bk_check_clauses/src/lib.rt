//! Static checks of the names, headers, clauses and values of a component: the first fault of each.
#![tactic(auto)]

pub mod clause_fault;
pub mod headers;
pub mod name_fault;
mod shape;
pub mod values;
