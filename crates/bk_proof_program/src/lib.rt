//! The program `bkproof` over any shelf and any sink: it shows proofs, faults and the status of developments. Nothing is trusted to it:
//! whether an obligation is proved is told by `bkit`.
#![tactic(auto)]

mod answer;
mod explain;
mod goal;
mod help;
mod list;
mod program;
mod project;
mod prune;
mod report;

pub use program::{bkproof, exit_code};
