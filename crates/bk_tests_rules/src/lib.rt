//! Tests of the rules of proof, of replays by them, and of obvious sequents.
#![tactic(auto)]

#[cfg(test)]
mod every_rule;
#[cfg(test)]
mod obvious;
#[cfg(test)]
mod reading;
#[cfg(test)]
mod replays;
#[cfg(test)]
mod rule_texts;
#[cfg(test)]
mod rules;
#[cfg(test)]
mod stating;
#[cfg(test)]
mod worked;
