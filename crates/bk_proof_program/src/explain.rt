//! `explain`.

ghost use Rattle.std.specs.Prelude.{◌≡◌, ◌≢◌, ◌≤◌, Some, MatchBool, IfOk, IfErr};
ghost use Rattle.bk_io.specs.Counts.{HasCause};
ghost use Rattle.bk_io.specs.Files.{Files};
ghost use Rattle.bk_cli.specs.Asked.{task_of, HasSmallNumbers};
ghost use Rattle.bk_verbs.specs.Causes.{IsOfReading};
ghost use Rattle.bk_verbs.specs.Stops.{IsOutside};
ghost use Rattle.bk_verbs.specs.declared.stop.Stop.TheVariants.{ReadFault};
ghost use Rattle.bk_proof_words.specs.declared.task.Task.TheVariants.{Explain};
ghost use Rattle.bk_proof_program.specs.Answers.{IsAnswer};
ghost use Rattle.bk_proof_program.specs.Explained.{task_with};
ghost use Rattle.bk_proof_program.specs.Said.{IsToldAnswer};

use crate::answer::Answer;
use bk_cli::Command;
use bk_explain::{Source, SourceKind, explanation};
use bk_front::{LineKind, ProjectLine, Refusal, lines};
use bk_io::{Fetch, Memory, Shelf, Text};
use bk_limits::{FUEL, MOST_BYTES};
use bk_verbs::{Status, Stop, Work, prepare};
use std::alloc::Global;
use std::str;

/// What is asked: a project, or an image, and calls.
#[derive(Clone, Copy)]
pub(crate) struct Question<'a> {
    pub(crate) file: &'a str,
    pub(crate) calls: Option<&'a str>,
    pub(crate) is_image: bool,
}

/// The stop at the first fault, as `bkit` tells it, and what it means; a line that says so where there is no fault.
pub(crate) fn explain_answer<H: Shelf>(
    alloc: Global,
    asked: Question<'_>,
    shelf: &mut H,
) -> Result<Answer, Stop>
    ensures outside { IfErr result IsOutside }
    ensures reading { IfErr result IsOfReading }
    ensures failed { HasCause ReadFault (H.faults shelf.old) (H.faults shelf.new) result }
    ensures ok { IfOk result IsAnswer }
    ensures told { IfOk result (λ a. (files : Files) → H.files shelf.old ≡ Some files →
        IsToldAnswer files (Explain asked.entry.file asked.entry.calls asked.entry.is_image) a) }
{
    let command = command_of(asked);
    let stop = match prepare(alloc, command, shelf) {
        Ok(_) => {
            let line = Vec::from_slice(alloc, b"no fault\n")?;
            return Ok(Answer::Whole(line, Status::Done));
        }
        Err(stop) => stop,
    };
    if is_of_reading(&stop) {
        return Err(stop);
    }
    let words = words_of(alloc, &stop, asked, shelf)?;
    Ok(Answer::Explained(stop, words))
}

// Whether a file was there and could not be read.
fn is_of_reading(stop: &Stop) -> bool
    ensures { MatchBool result (stop.now ≡ ReadFault) (stop.now ≢ ReadFault) }
{
    matches!(stop, Stop::ReadFault)
}

// What `bkit` is to check.
fn command_of(asked: Question<'_>) -> Command<'_>
    ensures small { HasSmallNumbers result }
    ensures task { task_of result ≡ task_with asked.entry.file.now asked.entry.is_image asked.entry.calls }
{
    match asked.calls {
        Some(calls) => session_of(asked.file, calls, asked.is_image),
        None => Command::Status {
            project: asked.file,
        },
    }
}

// Calls on an image or a project.
fn session_of<'a>(file: &'a str, calls: &'a str, is_image: bool) -> Command<'a>
    ensures small { HasSmallNumbers result }
    ensures task { task_of result ≡ task_with file.now is_image (Some calls.entry) }
{
    let fuel = FUEL;
    if is_image {
        Command::Exec {
            image: file,
            calls,
            fuel,
        }
    } else {
        Command::Run {
            project: file,
            calls,
            fuel,
        }
    }
}

// What a stop means.
fn words_of<H: Shelf>(
    alloc: Global,
    stop: &Stop,
    asked: Question<'_>,
    shelf: &mut H,
) -> Result<Vec<u8>, Memory>
    ensures { H.faults shelf.old ≤ H.faults shelf.new }
{
    let texts = copies_for(alloc, stop, asked, shelf)?;
    let sources = sources_of(alloc, &texts)?;
    explanation(alloc, stop, &sources)
}

// The files that are asked about; at a line of calls of a project also its image.
fn copies_for<H: Shelf>(
    alloc: Global,
    stop: &Stop,
    asked: Question<'_>,
    shelf: &mut H,
) -> Result<Vec<FileCopy>, Memory>
    ensures { H.faults shelf.old ≤ H.faults shelf.new }
{
    let mut texts = read_once_more(alloc, asked, shelf)?;
    if asked.is_image || !is_of_calls(stop) {
        return Ok(texts);
    }
    add_built(alloc, &mut texts, asked.file, shelf)?;
    Ok(texts)
}

fn is_of_calls(stop: &Stop) -> bool {
    matches!(stop, Stop::BadCalls(_))
}

// The image of a project, if it has one.
fn add_built<H: Shelf>(
    alloc: Global,
    all: &mut Vec<FileCopy>,
    project: &str,
    shelf: &mut H,
) -> Result<(), Memory>
    ensures { H.faults shelf.old ≤ H.faults shelf.new }
{
    match prepare(alloc, Command::Build { project }, shelf) {
        Ok(Work::Text(text)) => {
            all.push(FileCopy {
                name: Text::from_bytes(Vec::new(alloc)),
                kind: SourceKind::Image,
                text,
            })?;
            Ok(())
        }
        Err(Stop::Memory) => Err(Memory),
        _ => Ok(()),
    }
}

// A file, once more.
#[derive(Drop)]
struct FileCopy {
    name: Text,
    kind: SourceKind,
    text: Vec<u8>,
}

// The files of a project and the call script, as far as they are there.
fn read_once_more<H: Shelf>(
    alloc: Global,
    asked: Question<'_>,
    shelf: &mut H,
) -> Result<Vec<FileCopy>, Memory>
    ensures { H.faults shelf.old ≤ H.faults shelf.new }
{
    let mut all = Vec::new(alloc);
    if asked.is_image {
        let image = asked.file.as_bytes();
        add_copy(alloc, &mut all, image, SourceKind::Image, shelf)?;
    } else {
        add_project(alloc, &mut all, asked.file, shelf)?;
    }
    if let Some(calls) = asked.calls {
        add_copy(alloc, &mut all, calls.as_bytes(), SourceKind::Calls, shelf)?;
    }
    Ok(all)
}

// The project file, which is the first, and those that it names.
fn add_project<H: Shelf>(
    alloc: Global,
    all: &mut Vec<FileCopy>,
    project: &str,
    shelf: &mut H,
) -> Result<(), Memory>
    ensures { H.faults shelf.old ≤ H.faults shelf.new }
{
    add_copy(alloc, all, project.as_bytes(), SourceKind::Project, shelf)?;
    let named = named_files(alloc, all)?;
    add_copies(alloc, all, &named, shelf)
}

// The lines of the project file, which is the only copy so far; none where it is not there or at fault.
fn named_files(alloc: Global, all: &[FileCopy]) -> Result<Vec<ProjectLine>, Memory> {
    let Some(copy) = all.first() else {
        return Ok(Vec::new(alloc));
    };
    match lines(alloc, &copy.text) {
        Ok(named) => Ok(named),
        Err(Refusal::Memory) => Err(Memory),
        Err(_) => Ok(Vec::new(alloc)),
    }
}

fn add_copies<H: Shelf>(
    alloc: Global,
    all: &mut Vec<FileCopy>,
    named: &[ProjectLine],
    shelf: &mut H,
) -> Result<(), Memory>
    ensures { H.faults shelf.old ≤ H.faults shelf.new }
{
    for line in named {
        if let Some(kind) = kind_of(line) {
            add_copy(alloc, all, line.name.as_bytes(), kind, shelf)?;
        }
    }
    Ok(())
}

// What the file of a line is to hold; None of a line that names no file.
fn kind_of(line: &ProjectLine) -> Option<SourceKind> {
    match line.kind {
        LineKind::Range => None,
        LineKind::Machine => Some(SourceKind::Machine),
        LineKind::Refinement => Some(SourceKind::Refinement),
        LineKind::Implementation => Some(SourceKind::Implementation),
        LineKind::Proofs => Some(SourceKind::Proofs),
    }
}

fn add_copy<H: Shelf>(
    alloc: Global,
    all: &mut Vec<FileCopy>,
    name: &[u8],
    kind: SourceKind,
    shelf: &mut H,
) -> Result<(), Memory>
    ensures { H.faults shelf.old ≤ H.faults shelf.new }
{
    let own = Text::from_bytes(Vec::from_slice(alloc, name)?);
    if let Some(text) = fetched(alloc, name, shelf)? {
        all.push(FileCopy {
            name: own,
            kind,
            text,
        })?;
    }
    Ok(())
}

// The bytes of a file, if it is there and can be read.
fn fetched<H: Shelf>(alloc: Global, name: &[u8], shelf: &mut H) -> Result<Option<Vec<u8>>, Memory>
    ensures { H.faults shelf.old ≤ H.faults shelf.new }
{
    let Ok(name) = str::from_utf8(name) else {
        return Ok(None);
    };
    let mut text = Vec::new(alloc);
    match shelf.fetch(name, MOST_BYTES, &mut text) {
        Ok(()) => Ok(Some(text)),
        Err(Fetch::Memory) => Err(Memory),
        Err(_) => Ok(None),
    }
}

fn sources_of(alloc: Global, copies: &[FileCopy]) -> Result<Vec<Source<'_>>, Memory> {
    let mut sources = Vec::new(alloc);
    for copy in copies {
        if let Ok(name) = str::from_utf8(copy.name.as_bytes()) {
            sources.push(Source {
                name,
                kind: copy.kind,
                text: &copy.text,
            })?;
        }
    }
    Ok(sources)
}
