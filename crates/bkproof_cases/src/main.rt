//! Runs cases of text against `bkproof` over files in memory.
#![tactic(auto)]

use bk_cases::{Program, Stop, run_files};
use bk_io::{FileShelf, MemShelf, MemSink, StdSink};
use bk_proof_program::bkproof;
use std::alloc::Global;
use std::env;
use std::process::ExitCode;

struct Bkproof;

impl Program for Bkproof {
    fn run(&self, alloc: Global, words: &[String], shelf: &mut MemShelf, out: &mut MemSink) -> u8 {
        bkproof(alloc, words, shelf, out).code()
    }
}

// The cases of the files that the words name. Its exit status is 0 where all pass, 1 where some differ, and 2 where they are not
// read.
fn main(rt: HostRuntime) -> ExitCode {
    match all_pass(&rt) {
        Ok(true) => ExitCode::from(0),
        Ok(false) => ExitCode::from(1),
        Err(_) => ExitCode::from(2),
    }
}

fn all_pass(rt: &HostRuntime) -> Result<bool, Stop> {
    let Ok(words) = env::args(rt) else {
        return Err(Stop::Memory);
    };
    let names: Vec<String> = words.skip(1).collect(rt.alloc())?;
    let mut shelf = FileShelf::new(rt);
    let mut out = StdSink::new(rt);
    run_files(rt.alloc(), &Bkproof, &names, &mut shelf, &mut out)
}
