//! Tests of the types of formulas.
#![tactic(auto)]

#[cfg(test)]
mod type_texts;
#[cfg(test)]
mod types;
