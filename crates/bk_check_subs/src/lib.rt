//! Static checks of the substitutions of a component: the first fault.
#![tactic(auto)]

pub mod judging;
pub mod left;
