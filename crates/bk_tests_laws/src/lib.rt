//! Tests of the laws.
#![tactic(auto)]

#[cfg(test)]
mod function_law_texts;
#[cfg(test)]
mod law_printing;
#[cfg(test)]
mod law_texts;
#[cfg(test)]
mod laws;
#[cfg(test)]
mod set_law_texts;
