//! Tests of printed formulas: what they print as, and that the text is read as the same formula.
#![tactic(auto)]

#[cfg(test)]
mod drawing;
#[cfg(test)]
mod draws;
#[cfg(test)]
mod names;
#[cfg(test)]
mod printed;
#[cfg(test)]
mod texts;
