//! Tests of what replaces and binds the variables of formulas, and of operators on formulas within the limits.
#![tactic(auto)]

#[cfg(test)]
mod binding;
#[cfg(test)]
mod binding_texts;
#[cfg(test)]
mod joining;
#[cfg(test)]
mod limits;
#[cfg(test)]
mod replacement;
