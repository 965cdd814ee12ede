//! Tests of the statuses with which the program ends.
#![tactic(auto)]

#[cfg(test)]
mod statuses;
