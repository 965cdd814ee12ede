//! Tests of the program that is called more than once on the same devices.
#![tactic(auto)]

#[cfg(test)]
mod calls;
mod twice;

pub use twice::call_twice;
