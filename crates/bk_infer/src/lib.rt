//! Type inference for the declared names of a component: what gives each name its type, and the types that follow.
#![tactic(auto)]

pub mod all_ways;
pub mod counting;
mod group;
mod same;
pub mod settled;
mod ways;
