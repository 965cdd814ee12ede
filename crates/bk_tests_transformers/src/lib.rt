//! Tests of what the box, the diamond and the conditions of substitutions are made, and of substitutions without `||`.
#![tactic(auto)]

#[cfg(test)]
mod evaluation;
#[cfg(test)]
mod evaluation_texts;
#[cfg(test)]
mod flattening;
#[cfg(test)]
mod flattening_texts;
#[cfg(test)]
mod growth;
#[cfg(test)]
mod guarding;
#[cfg(test)]
mod guarding_texts;
#[cfg(test)]
mod transformer_texts;
#[cfg(test)]
mod transformers;
#[cfg(test)]
mod written;
