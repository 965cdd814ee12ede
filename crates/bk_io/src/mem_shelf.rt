// Shelves over files in memory.
ghost use Rattle.std.specs.Prelude.{◌≡◌, ◌≢◌, ◌↔◌, ◌+◌, ◌-◌, ◌^◌, ◌<◌, ◌≤◌, All, Contains, Option, Some, OnOk, OnErr, IfSome, IsTrue};
ghost use Rattle.std.specs.Option.{option_copied};
ghost use Rattle.bk_io.specs.Counts.{counted, CountsCalls, HasCause, Rose};
ghost use Rattle.bk_io.specs.Files.{Files, files_of, file_named, HasDistinctNames, GainsUpTo, AnswersFile};
ghost use Rattle.bk_io.specs.Devices.{shelf_files, shelf_failing, shelf_calls, shelf_faults, shelf_absences, sure_files, sure_absences};

use crate::schedule::Schedule;
use crate::{Fetch, Shelf};

fn find_file<'a>(files: &'a [(String, Vec<u8>)], name: &str) -> Option<&'a [u8]>
    ensures { option_copied result ≡ file_named (files_of files.now) name.now }
{
    for file in files {
        if name == file.0.as_str() {
            return Some(file.1.as_slice());
        }
    }
    None
}

/// Whether no two of the files have one name, as a shelf asks.
pub fn have_distinct_names(files: &[(String, Vec<u8>)]) -> bool
    ensures { IsTrue result ↔ HasDistinctNames (files_of files.now) }
{
    let mut rest = files;
    while let Some((file, others)) = rest.split_first() {
        if find_file(others, file.0.as_str()).is_some() {
            return false;
        }
        rest = others;
    }
    true
}

// A fetch that does not fail.
fn append_file(
    files: &[(String, Vec<u8>)],
    name: &str,
    max: usize,
    into: &mut Vec<u8>,
) -> Result<(), Fetch>
    ensures answer { AnswersFile (file_named (files_of files.now) name.now) max ⊥ into.old.items into.new.items result }
    ensures err { OnErr result (into.new.items ≡ into.old.items) }
    ensures no_fault { result ≢ Err Fetch.Failed }
{
    let bytes = find_file(files, name).ok_or(Fetch::Missing)?;
    if bytes.len() > max {
        return Err(Fetch::TooLong);
    }
    into.extend_from_slice(bytes)?;
    Ok(())
}

/// Files in memory, some fetches of which fail.
#[derive(Drop)]
pub struct MemShelf {
    files: Vec<(String, Vec<u8>)>,
    schedule: Schedule,
    absences: u64,
}

impl MemShelf {
    /// The files by name, and the numbers, from 1, of the fetches that fail. It takes no memory.
    pub fn new(files: Vec<(String, Vec<u8>)>, failing: Vec<u64>) -> MemShelf
        requires names { HasDistinctNames (files_of files.items) }
        requires numbers { All (λ n. n < 2 ^ 64 - 1) failing.items }
        ensures files { shelf_files result ≡ files_of files.items }
        ensures failing { shelf_failing result ≡ failing.items }
        ensures calls { shelf_calls result ≡ 0 }
        ensures faults { shelf_faults result ≡ 0 }
        ensures absences { shelf_absences result ≡ 0 }
    {
        MemShelf {
            files,
            schedule: Schedule::new(failing),
            absences: 0,
        }
    }
}

impl Shelf for MemShelf {
    ghost files = { λ shelf. Some (shelf_files shelf) };

    ghost faults = { shelf_faults };

    ghost absences = { shelf_absences };

    fn fetch(&mut self, name: &str, max: usize, into: &mut Vec<u8>) -> Result<(), Fetch>
        ensures same_files { shelf_files self.new ≡ shelf_files self.old }
        ensures failed { HasCause Fetch.Failed (shelf_faults self.old) (shelf_faults self.new) result }
        ensures missing { HasCause Fetch.Missing (shelf_absences self.old) (shelf_absences self.new) result }
        ensures ok { OnOk result (GainsUpTo max into.old.items into.new.items) }
        ensures err { OnErr result (into.new.items ≡ into.old.items) }
        ensures told { AnswersFile (file_named (shelf_files self.old) name.now) max
            (Rose (shelf_faults self.old) (shelf_faults self.new)) into.old.items into.new.items result }
        // The calls that are to fail do, and no others.
        ensures scheduled { (result ≡ Err Fetch.Failed) ↔ Contains (shelf_failing self.old) (shelf_calls self.old + 1) }
        ensures calls { shelf_calls self.new ≡ counted (shelf_calls self.old) }
        ensures faults { CountsCalls Fetch.Failed (shelf_faults self.old) (shelf_faults self.new) result }
        ensures absences { CountsCalls Fetch.Missing (shelf_absences self.old) (shelf_absences self.new) result }
        // So the count of faults rises with a failed call alone.
        ensures rises { Rose (shelf_faults self.old) (shelf_faults self.new) ↔ (result ≡ Err Fetch.Failed) }
        ensures failing { shelf_failing self.new ≡ shelf_failing self.old }
    {
        if self.schedule.fails() {
            return Err(Fetch::Failed);
        }
        let answer = append_file(&self.files, name, max, into);
        if answer == Err(Fetch::Missing) {
            self.absences = self.absences.saturating_add(1);
        }
        answer
    }
}

/// Files in memory, whose fetches never fail.
#[derive(Drop)]
pub struct SureShelf {
    files: Vec<(String, Vec<u8>)>,
    absences: u64,
}

impl SureShelf {
    /// The files by name. It takes no memory.
    pub fn new(files: Vec<(String, Vec<u8>)>) -> SureShelf
        requires { HasDistinctNames (files_of files.items) }
        ensures files { sure_files result ≡ files_of files.items }
        ensures absences { sure_absences result ≡ 0 }
    {
        SureShelf { files, absences: 0 }
    }
}

impl Shelf for SureShelf {
    ghost files = { λ shelf. Some (sure_files shelf) };

    ghost faults = { λ _. 0 };

    ghost absences = { sure_absences };

    fn fetch(&mut self, name: &str, max: usize, into: &mut Vec<u8>) -> Result<(), Fetch>
        ensures same_files { sure_files self.new ≡ sure_files self.old }
        ensures missing { HasCause Fetch.Missing (sure_absences self.old) (sure_absences self.new) result }
        ensures err { OnErr result (into.new.items ≡ into.old.items) }
        // No fault rises.
        ensures told { AnswersFile (file_named (sure_files self.old) name.now) max ⊥ into.old.items into.new.items result }
        ensures never_fails { result ≢ Err Fetch.Failed }
        ensures absences { CountsCalls Fetch.Missing (sure_absences self.old) (sure_absences self.new) result }
    {
        let answer = append_file(&self.files, name, max, into);
        if answer == Err(Fetch::Missing) {
            self.absences = self.absences.saturating_add(1);
        }
        answer
    }
}
