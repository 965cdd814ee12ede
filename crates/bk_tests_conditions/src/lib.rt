//! Tests of what formulas ask: that they are defined, and that executed expressions fit the machine.
#![tactic(auto)]

#[cfg(test)]
mod condition_texts;
#[cfg(test)]
mod conditions;
#[cfg(test)]
mod joining;
