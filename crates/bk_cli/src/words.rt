//! The words of the command line, read by `clap` as one simple command: a verb, any number of files, and the fuel.

ghost use Rattle.std.specs.Prelude.{◌≡◌, ◌≢◌, List, [], ℕ, map, option_map, unwrap_or, codes};
ghost use Rattle.std.specs.Prelude.{Some, None, IfOk, OnOk, IfErr, OnErr, string_bytes};
ghost use Rattle.clap.specs.Words.{app_of, found_of, first_value, matched_of, raw_values};
ghost use Rattle.clap.specs.Walk.{rows_of, texts};
ghost use Rattle.bk_cli.specs.Words.{program_command, refusal_kinds, found_rows, AreWords};
ghost use Rattle.bk_cli.specs.declared.words.WordsFault.TheVariants.{Refused};

use bk_limits::FUEL_TEXT;
use clap::error::ErrorKind;
use clap::{Arg, ArgAction, ArgMatches, Command};
use std::alloc::{AllocError, AllocFailed, Global};

/// The words of the command line. Fuel is the text after `--fuel`, or else the default.
#[derive(Drop)]
pub(crate) struct Words<'a> {
    pub(crate) verb: &'a str,
    pub(crate) files: Vec<&'a str>,
    pub(crate) fuel: &'a str,
}

/// Why words ask for no command.
#[derive(Clone, Copy, PartialEq, Eq, Debug)]
pub enum WordsFault {
    /// They are wrong.
    Refused,
    /// There was no memory.
    Memory,
}

impl From<AllocError> for WordsFault {
    ghost use Rattle.bk_cli.specs.declared.words.WordsFault.TheVariants.{Memory};

    ghost from_gives = { λ _ fault. fault ≡ Memory };

    fn from(_: AllocError) -> Self {
        WordsFault::Memory
    }
}

impl<T: Drop> From<AllocFailed<T>> for WordsFault {
    ghost use Rattle.bk_cli.specs.declared.words.WordsFault.TheVariants.{Memory};

    ghost from_gives = { λ _ fault. fault ≡ Memory };

    fn from(_: AllocFailed<T>) -> Self {
        WordsFault::Memory
    }
}

// The one command of the program.
fn command<'a>(alloc: Global) -> Result<Command<'a>, AllocError>
    ensures { IfOk result (λ command. app_of command ≡ program_command) }
{
    let verb = Arg::new(alloc, "VERB").required(true);
    let files = Arg::new(alloc, "FILE")
        .action(ArgAction::Append)
        .num_args(0..);
    let fuel = Arg::new(alloc, "fuel")
        .long("fuel")
        .default_value(FUEL_TEXT);
    Command::new(alloc, "bkit")
        .no_binary_name(true)
        .disable_help_flag(true)
        .disable_version_flag(true)
        .arg(verb)?
        .arg(files)?
        .arg(fuel)
}

// What the command makes of the words, unless it refuses them.
fn matches_of<'a>(alloc: Global, given: &'a [String]) -> Result<ArgMatches<'a>, WordsFault>
    ensures taken { OnOk result (refusal_kinds (map string_bytes given.now) ≡ []) }
    ensures rows { IfOk result (λ m. rows_of (found_of m) ≡ found_rows (map string_bytes given.now)) }
    ensures refused { IfErr result (λ fault. fault ≡ Refused →
        (verb : List ℕ) (files : List (List ℕ)) (fuel : List ℕ) →
        AreWords (map string_bytes given.now) verb files fuel → ⊥) }
{
    let command = command(alloc)?;
    match command.try_get_matches_from(given) {
        Ok(matches) => Ok(matches),
        Err(error) => Err(words_fault(error.kind())),
    }
}

// An error of the parser, but for want of memory, refuses the words.
fn words_fault(kind: ErrorKind) -> WordsFault
    ensures { result ≡ Refused → kind ≢ ErrorKind.OutOfMemory }
{
    match kind {
        ErrorKind::OutOfMemory => WordsFault::Memory,
        _ => WordsFault::Refused,
    }
}

/// Reads the words of the command line, without the program's name. What stands after `--fuel` is any text here.
pub(crate) fn read_words<'a>(alloc: Global, given: &'a [String]) -> Result<Words<'a>, WordsFault>
    ensures read { IfOk result (λ words.
        AreWords (map string_bytes given.now) words.verb.now (texts words.files.items) words.fuel.now) }
    ensures refused { IfErr result (λ fault. fault ≡ Refused →
        (verb : List ℕ) (files : List (List ℕ)) (fuel : List ℕ) →
        AreWords (map string_bytes given.now) verb files fuel → ⊥) }
{
    let matches = matches_of(alloc, given)?;
    let verb = value_of(&matches, "VERB")?;
    let fuel = value_of(&matches, "fuel")?;
    let files = files_of(alloc, &matches)?;
    Ok(Words { verb, files, fuel })
}

// The value of an argument that has one.
fn value_of<'a>(matches: &ArgMatches<'a>, id: &str) -> Result<&'a str, WordsFault>
    ensures value { IfOk result (λ value. first_value (found_of matches.now) id.now ≡ Some value.now) }
    ensures none { OnErr result (first_value (found_of matches.now) id.now ≡ None) }
{
    match matches.get_str(id) {
        Some(value) => Ok(value),
        None => Err(WordsFault::Refused),
    }
}

// The files that the words name.
fn files_of<'a>(alloc: Global, matches: &ArgMatches<'a>) -> Result<Vec<&'a str>, AllocError>
    ensures { IfOk result (λ files. texts files.items ≡
        unwrap_or (option_map raw_values (matched_of (found_of matches.now) (codes "FILE"))) []) }
{
    match matches.get_raw("FILE") {
        Some(named) => Vec::from_slice(alloc, named),
        None => Ok(Vec::new(alloc)),
    }
}
