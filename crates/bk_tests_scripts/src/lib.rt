//! Tests of what is made of the counter where no case of the program shows it: the rules that lines of proof files stand for, and
//! its executable part.
#![tactic(auto)]

#[cfg(test)]
mod counter;
#[cfg(test)]
mod grounding;
#[cfg(test)]
mod units;
