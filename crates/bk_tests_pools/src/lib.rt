//! Tests of pools of formulas.
#![tactic(auto)]

#[cfg(test)]
mod pool_texts;
#[cfg(test)]
mod pools;
