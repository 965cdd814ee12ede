//! The words of the command line, read by `clap` as one simple command: a verb, any number of files, and the options.

ghost use Rattle.std.specs.Prelude.{◌≡◌, ◌≢◌, [], map, option_map, unwrap_or, codes, false, IfOk, IfErr, OnOk, MatchOption, string_bytes};
ghost use Rattle.clap.specs.Words.{app_of, first_of, found_of, matched_of, raw_values, rows_of, rule_of};
ghost use Rattle.clap.specs.Walk.{texts};
ghost use Rattle.bk_cli.specs.declared.words.WordsFault.TheVariants.{Refused};
ghost use Rattle.bk_proof_words.specs.Words.{flag_rule, found_rows, is_on, program_command, refusal_kinds};
ghost use Rattle.bk_proof_words.specs.Tasks.{AskForNothing, Asks, IsTaskOf, chosen_by, chosen_in};
ghost use Rattle.bk_proof_words.specs.declared.task.Task.{Task};

use crate::task::Task;
use crate::verbs::{Options, verb_task};
use bk_cli::WordsFault;
use clap::error::ErrorKind;
use clap::{Arg, ArgAction, ArgMatches, Command};
use std::alloc::{AllocError, Global};

/// The task that the words ask for. They are those of the command line without the program's name.
pub fn asked<'a>(alloc: Global, given: &'a [String]) -> Result<Task<'a>, WordsFault>
    ensures asked { IfOk result (Asks (map string_bytes given.now)) }
    ensures nothing { IfErr result (λ fault. fault ≡ Refused → AskForNothing (map string_bytes given.now)) }
{
    let matches = matches_of(alloc, given)?;
    let found = task_of(alloc, &matches)?;
    match found {
        Some(task) => Ok(task),
        None => Err(WordsFault::Refused),
    }
}

// What the command makes of the words, unless it refuses them.
fn matches_of<'a>(alloc: Global, given: &'a [String]) -> Result<ArgMatches<'a>, WordsFault>
    ensures taken { OnOk result (refusal_kinds (map string_bytes given.now) ≡ []) }
    ensures rows { IfOk result (λ m. rows_of (found_of m) ≡ found_rows (map string_bytes given.now)) }
    ensures refused { IfErr result (λ fault. fault ≡ Refused → refusal_kinds (map string_bytes given.now) ≢ []) }
{
    let command = command(alloc)?;
    match command.try_get_matches_from(given) {
        Ok(matches) => Ok(matches),
        Err(error) => Err(words_fault(error.kind())),
    }
}

// An error of the parser, but for want of memory, refuses the words.
fn words_fault(kind: ErrorKind) -> WordsFault
    ensures { result ≡ Refused → kind ≢ ErrorKind.OutOfMemory }
{
    match kind {
        ErrorKind::OutOfMemory => WordsFault::Memory,
        _ => WordsFault::Refused,
    }
}

// The one command of the program.
fn command<'a>(alloc: Global) -> Result<Command<'a>, AllocError>
    ensures { IfOk result (λ command. app_of command ≡ program_command) }
{
    let verb = Arg::new(alloc, "VERB");
    let files = Arg::new(alloc, "FILE")
        .action(ArgAction::Append)
        .num_args(0..);
    let at = Arg::new(alloc, "at").long("at");
    Command::new(alloc, "bkproof")
        .no_binary_name(true)
        .disable_help_flag(true)
        .disable_version_flag(true)
        .arg(verb)?
        .arg(files)?
        .arg(at)?
        .arg(flag(alloc, "open"))?
        .arg(flag(alloc, "json"))?
        .arg(flag(alloc, "html"))?
        .arg(flag(alloc, "image"))?
        .arg(flag(alloc, "help"))?
        .arg(flag(alloc, "man"))
}

// An option without a value.
fn flag<'a>(alloc: Global, name: &'a str) -> Arg<'a>
    ensures rule { rule_of result ≡ flag_rule name.now }
    ensures local { result.global ≡ false }
{
    Arg::new(alloc, name).long(name).action(ArgAction::SetTrue)
}

// The task of what the command found.
fn task_of<'a>(alloc: Global, matches: &ArgMatches<'a>) -> Result<Option<Task<'a>>, AllocError>
    ensures { IfOk result (λ found. MatchOption found
        ((task : Task) → IsTaskOf (rows_of (found_of matches.now)) task → ⊥)
        (IsTaskOf (rows_of (found_of matches.now)))) }
{
    if has_flag(matches, "help") {
        return Ok(Some(Task::Help));
    }
    if has_flag(matches, "man") {
        return Ok(Some(Task::ManPage));
    }
    let Some(verb) = value_of(matches, "VERB") else {
        return Ok(None);
    };
    let files = files_of(alloc, matches)?;
    let options = options_of(matches);
    Ok(verb_task(verb, &files, &options))
}

// The options that the command found.
fn options_of<'a>(matches: &ArgMatches<'a>) -> Options<'a>
    ensures { chosen_by result ≡ chosen_in (rows_of (found_of matches.now)) }
{
    Options {
        at: value_of(matches, "at"),
        has_open: has_flag(matches, "open"),
        has_json: has_flag(matches, "json"),
        has_html: has_flag(matches, "html"),
        has_image: has_flag(matches, "image"),
    }
}

// The files that the words name.
fn files_of<'a>(alloc: Global, matches: &ArgMatches<'a>) -> Result<Vec<&'a str>, AllocError>
    ensures { IfOk result (λ files. texts files.items ≡
        unwrap_or (option_map raw_values (matched_of (found_of matches.now) (codes "FILE"))) []) }
{
    match matches.get_raw("FILE") {
        Some(named) => Vec::from_slice(alloc, named),
        None => Ok(Vec::new(alloc)),
    }
}

// The value of an argument.
fn value_of<'a>(matches: &ArgMatches<'a>, id: &str) -> Option<&'a str>
    ensures { option_map (λ text. text.now) result ≡ first_of id.now (rows_of (found_of matches.now)) }
{
    matches.get_str(id)
}

// Whether an option without a value is there.
fn has_flag(matches: &ArgMatches<'_>, id: &str) -> bool
    ensures { result ≡ is_on id.now (rows_of (found_of matches.now)) }
{
    match value_of(matches, id) {
        Some(text) => text == "true",
        None => false,
    }
}
