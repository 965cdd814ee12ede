//! Tests of tokens, of operators, and of how terms are read.
#![tactic(auto)]

#[cfg(test)]
mod lexis;
#[cfg(test)]
mod notation;
#[cfg(test)]
mod operator_table;
#[cfg(test)]
mod operators;
#[cfg(test)]
mod terms;
