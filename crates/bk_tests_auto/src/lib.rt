//! Tests of the search for rules.
#![tactic(auto)]

#[cfg(test)]
mod easy_texts;
#[cfg(test)]
mod found;
#[cfg(test)]
mod names;
#[cfg(test)]
mod sizes;
#[cfg(test)]
mod typed;
#[cfg(test)]
mod written;
