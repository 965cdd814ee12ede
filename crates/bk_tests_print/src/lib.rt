//! Tests of printed rules: each is printed as it is written by hand, and reads back as the same rule.
#![tactic(auto)]

#[cfg(test)]
mod printed;
#[cfg(test)]
mod rule_texts;
#[cfg(test)]
mod words;
