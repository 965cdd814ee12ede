//! Tests of values, formulas, substitutions and sequents.
#![tactic(auto)]

#[cfg(test)]
mod formulas;
#[cfg(test)]
mod sequents;
#[cfg(test)]
mod substitutions;
#[cfg(test)]
mod values;
