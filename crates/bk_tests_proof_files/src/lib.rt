//! Tests of the reader of proof files.
#![tactic(auto)]

#[cfg(test)]
mod examples;
#[cfg(test)]
mod faults;
#[cfg(test)]
mod files;
#[cfg(test)]
mod limits;
#[cfg(test)]
mod prefixes;
#[cfg(test)]
mod texts;
