//! Tests of what written terms mean: formulas, and the first of their faults.
#![tactic(auto)]

#[cfg(test)]
mod readings;
