//! Shows proofs, faults and the status of developments in the classical B Method.
#![tactic(auto)]

mod progress;

use crate::progress::NotedShelf;
use bk_io::{FileShelf, StdSink};
pub use bk_proof_program::bkproof;
use bk_proof_program::exit_code;
use std::io::IsTerminal;
use std::process::ExitCode;
use std::{env, io};

// The program over the system's files and standard output; the names of the files that it reads go to standard error, where that is a
// terminal.
fn main(rt: HostRuntime) -> ExitCode {
    let is_seen = rt.stderr().is_terminal();
    let mut shelf = NotedShelf::new(FileShelf::new(&rt), &rt, is_seen);
    let mut out = StdSink::new(&rt);
    exit_code(rt.alloc(), given_words(&rt), &mut shelf, &mut out)
}

// The words after the program's name.
fn given_words(rt: &HostRuntime) -> io::Result<Vec<String>> {
    let words = env::args(rt)?.skip(1).collect(rt.alloc())?;
    Ok(words)
}
