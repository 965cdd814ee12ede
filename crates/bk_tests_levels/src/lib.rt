//! Tests of levels: what a component below a development is, what the words of the notation stand for, and the limit of names.
#![tactic(auto)]

#[cfg(test)]
mod answers;
#[cfg(test)]
mod limit;
#[cfg(test)]
mod notation;
#[cfg(test)]
mod row_texts;
#[cfg(test)]
mod rows;
#[cfg(test)]
mod sugar;
