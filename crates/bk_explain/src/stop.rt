//! Stops in words.

use crate::calls::say_calls;
use crate::image::say_image;
use crate::level::say_level_fault;
use crate::limit::say_limit;
use crate::name::say_name_fault;
use crate::project::{say_component_fault, say_line_fault};
use crate::say::{say, say_line, say_quoted};
use crate::source::{Source, source_named};
use crate::spelling::{say_lexical_fault, say_syntax_fault};
use bk_io::{Memory, Text};
use bk_verbs::Stop;
use std::alloc::Global;

/// What a stop means, in words after the line that tells it. The sources are the files that were read.
pub fn explanation(alloc: Global, stop: &Stop, sources: &[Source<'_>]) -> Result<Vec<u8>, Memory> {
    let mut words = Vec::new(alloc);
    match stop {
        Stop::Missing(name) => say_missing(&mut words, name)?,
        Stop::Refused(number, place, name) => {
            say_refused(alloc, &mut words, sources, *number, *place, name)?;
        }
        Stop::Limit(number, _) => say_limit(&mut words, *number)?,
        Stop::Unproved(name) => say_unproved(&mut words, name)?,
        Stop::Incomplete(_) => say(
            &mut words,
            "the last component is not an implementation, so there is nothing to run\n",
        )?,
        Stop::BadCalls(line) => say_calls(alloc, &mut words, sources, *line as usize)?,
        Stop::BadImage(fault) => say_image(&mut words, *fault)?,
        Stop::ReadFault => say(
            &mut words,
            "a file could not be read, as where a folder has its name\n",
        )?,
        Stop::Usage | Stop::WriteFault | Stop::Memory => {}
    }
    Ok(words)
}

fn say_missing(words: &mut Vec<u8>, name: &Text) -> Result<(), Memory> {
    say(words, "no file has the name ")?;
    say_quoted(words, name.as_bytes())?;
    say(
        words,
        "; names are taken from the folder in which the program is started\n",
    )
}

fn say_unproved(words: &mut Vec<u8>, name: &Text) -> Result<(), Memory> {
    say(
        words,
        "it is the first obligation that is neither obvious nor proved; bkproof goal PROJECT ",
    )?;
    words.extend_from_slice(name.as_bytes())?;
    say(words, " shows it\n")
}

// The fault with this number, at a place of the file with this name.
fn say_refused(
    alloc: Global,
    words: &mut Vec<u8>,
    sources: &[Source<'_>],
    number: u8,
    place: usize,
    name: &Text,
) -> Result<(), Memory> {
    let Some(source) = source_named(sources, name.as_bytes()) else {
        return Ok(());
    };
    if number == 4 {
        return say_line_fault(words, source, place);
    }
    say_line(words, source, place)?;
    match number {
        1 | 2 => say_lexical_fault(alloc, words, source),
        3 => say_syntax_fault(alloc, words, source, place),
        5 => say_component_fault(alloc, words, sources, source),
        6 | 7 | 8 | 9 => say_name_fault(alloc, words, sources, source, number, place),
        _ => say_level_fault(alloc, words, sources, source, number, place),
    }
}
