//! Calls of an image by their text: the script that asks for them, and the lines that answer.
#![tactic(auto)]

mod argument;
mod laws;
mod line;
mod reply_line;
mod room;
mod sample_calls;
mod sample_files;
mod sample_implementation;
mod sample_machine;
mod sample_project;
mod sample_proofs;
mod sample_variables;
mod script;
mod table;
mod transcript;
mod value;

pub use bk_code::Memory;
pub use laws::{longest_lines_are_longest, scripts_are_read_one_way};
pub use reply_line::ReplyLine;
pub use sample_files::{SAMPLE_CALLS, SAMPLE_PROJECT, Sample};
pub use sample_project::sample;
pub use script::{Call, CallsFault, calls};
pub use transcript::{closing, reply, steps};
