// The edge to the system: a shelf over its files and a sink over its standard output. They tell no bytes.
ghost use Rattle.std.specs.Prelude.{◌≡◌, ◌≢◌, None, take, length, OnOk, OnErr, IfOk};
ghost use Rattle.bk_io.specs.Counts.{CountsCalls, HasCause};
ghost use Rattle.bk_io.specs.Edge.{file_faults, file_absences, std_faults};
ghost use Rattle.bk_io.specs.Files.{GainsUpTo};
ghost use Rattle.bk_io.specs.Pieces.{IsTaken};

use crate::{Fetch, Shelf, Sink, SinkFault};
use std::fs::File;
use std::io;
use std::io::{ErrorKind, Read};
use std::rt::Files;

const PIECE: usize = 4096;

/// The system's files. A name is a path from the working directory.
#[derive(Drop)]
pub struct FileShelf<'a, R> {
    rt: &'a R,
    faults: u64,
    absences: u64,
}

impl<'a, R> FileShelf<'a, R> {
    pub fn new(rt: &'a R) -> Self
        ensures faults { file_faults result ≡ 0 }
        ensures absences { file_absences result ≡ 0 }
    {
        FileShelf {
            rt,
            faults: 0,
            absences: 0,
        }
    }
}

// No file is there, or the path leads through one.
fn refusal(error: &io::Error) -> Fetch {
    match error.kind() {
        ErrorKind::NotFound | ErrorKind::NotADirectory => Fetch::Missing,
        _ => Fetch::Failed,
    }
}

// After an error some bytes may stand at the end of `into`.
#[tactic(auto, using(crate::proofs::Gains::gains_from_front))]
fn read_file<R: Files>(rt: &R, name: &str, max: usize, into: &mut Vec<u8>) -> Result<(), Fetch>
    ensures kept { take (length into.old.items) into.new.items ≡ into.old.items }
    ensures ok { OnOk result (GainsUpTo max into.old.items into.new.items) }
{
    let mut file = File::open(rt, name).map_err(|error| refusal(&error))?;
    let mut piece = [0u8; PIECE];
    let mut left = max;
    loop {
        // One byte more than may come tells a longer file.
        let room = left.saturating_add(1).min(PIECE);
        let count = file.read(&mut piece[..room]).map_err(|_| Fetch::Failed)?;
        if count == 0 {
            return Ok(());
        }
        if count > left {
            return Err(Fetch::TooLong);
        }
        into.extend_from_slice(&piece[..count])?;
        left -= count;
    }
}

impl<R: Files> Shelf for FileShelf<'_, R> {
    ghost files = { λ _. None };

    ghost faults = { file_faults };

    ghost absences = { file_absences };

    fn fetch(&mut self, name: &str, max: usize, into: &mut Vec<u8>) -> Result<(), Fetch>
        ensures failed { HasCause Fetch.Failed (file_faults self.old) (file_faults self.new) result }
        ensures missing { HasCause Fetch.Missing (file_absences self.old) (file_absences self.new) result }
        ensures ok { OnOk result (GainsUpTo max into.old.items into.new.items) }
        ensures err { OnErr result (into.new.items ≡ into.old.items) }
        ensures faults { CountsCalls Fetch.Failed (file_faults self.old) (file_faults self.new) result }
        ensures absences { CountsCalls Fetch.Missing (file_absences self.old) (file_absences self.new) result }
    {
        let start = into.len();
        let answer = read_file(self.rt, name, max, into);
        if answer.is_err() {
            into.truncate(start);
        }
        match answer {
            Err(Fetch::Failed) => self.faults = self.faults.saturating_add(1),
            Err(Fetch::Missing) => self.absences = self.absences.saturating_add(1),
            _ => {}
        }
        answer
    }
}

/// Standard output. What is put is written at once, in order.
#[derive(Drop)]
pub struct StdSink<'a, P> {
    out: &'a P,
    faults: u64,
}

impl<'a, P> StdSink<'a, P> {
    pub fn new(out: &'a P) -> Self
        ensures { std_faults result ≡ 0 }
    {
        StdSink { out, faults: 0 }
    }
}

impl<P: Print> Sink for StdSink<'_, P> {
    ghost written = { λ _. None };

    ghost pieces = { λ _. None };

    ghost faults = { std_faults };

    fn put(&mut self, piece: &[u8]) -> Result<usize, SinkFault>
        ensures taken { IfOk result (IsTaken piece.now) }
        ensures failed { HasCause SinkFault.Failed (std_faults self.old) (std_faults self.new) result }
        ensures faults { CountsCalls SinkFault.Failed (std_faults self.old) (std_faults self.new) result }
        ensures no_memory { result ≢ Err SinkFault.Memory }
    {
        match self.out.write_some(piece) {
            Ok(count) if count > 0 || piece.is_empty() => Ok(count),
            // A stream that takes nothing has failed.
            _ => {
                self.faults = self.faults.saturating_add(1);
                Err(SinkFault::Failed)
            }
        }
    }
}
