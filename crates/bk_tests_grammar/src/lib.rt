//! Tests of substitutions and components as they are written.
#![tactic(auto)]

#[cfg(test)]
mod answer;
#[cfg(test)]
mod components;
#[cfg(test)]
mod lengths;
#[cfg(test)]
mod prefixes;
#[cfg(test)]
mod substitutions;
#[cfg(test)]
mod worked;
