//! Faults of components below others: headers, where substitutions stand, values.

use crate::executed::say_executed;
use crate::say::{say, say_quoted, token_at, tokens_of, word_at};
use crate::source::Source;
use crate::tree::{
    constants, entries_for, is_constant, lacks_initialisation, machine_of, operation_named,
    operations, tree_of, values,
};
use crate::written::say_written;
use bk_io::Memory;
use bk_raw::{RawComponent, RawName, RawOperation};
use std::alloc::Global;

/// The fault with this number, from 10 on.
pub(crate) fn say_level_fault(
    alloc: Global,
    words: &mut Vec<u8>,
    sources: &[Source<'_>],
    source: Source<'_>,
    number: u8,
    place: usize,
) -> Result<(), Memory> {
    let list = tokens_of(alloc, source.text)?;
    let Some(tree) = tree_of(alloc, source)? else {
        return Ok(());
    };
    let Some(index) = token_at(&list, place) else {
        return Ok(());
    };
    let token = word_at(source.text, &list, index);
    match number {
        10 => say_shape(alloc, words, sources, &tree, token, place),
        11 => say_executed(words, source.text, &list, index),
        12 => say_written(alloc, words, sources, source, &list, index),
        14 => say_value(alloc, words, sources, &tree, token, place),
        _ => say(words, "this is not read\n"),
    }
}

// ---- headers, and where substitutions stand
// A header that is not the machine's, or a substitution where it may not stand.
fn say_shape(
    alloc: Global,
    words: &mut Vec<u8>,
    sources: &[Source<'_>],
    tree: &RawComponent,
    token: &[u8],
    place: usize,
) -> Result<(), Memory> {
    if place == tree.at {
        return say_wanting(alloc, words, sources, tree);
    }
    for operation in operations(tree) {
        if first_token(operation) == place {
            return say_header(alloc, words, sources, operation);
        }
    }
    match token {
        b"VAR" => say(
            words,
            "VAR is allowed only in refinements and implementations, and not within ||\n",
        ),
        b"WHILE" => say(
            words,
            "WHILE is allowed only in implementations, and not within ||\n",
        ),
        _ => say(
            words,
            "a sequence of substitutions begins here: ; is allowed only in refinements and implementations, and not within ||\n",
        ),
    }
}

// What a component lacks.
fn say_wanting(
    alloc: Global,
    words: &mut Vec<u8>,
    sources: &[Source<'_>],
    tree: &RawComponent,
) -> Result<(), Memory> {
    if lacks_initialisation(tree) {
        return say_no_initialisation(words);
    }
    if let Some(machine) = machine_of(alloc, sources)? {
        for operation in operations(&machine) {
            let name = operation.name.text.as_bytes();
            if operation_named(tree, name).is_none() {
                say_quoted(words, name)?;
                return say(words, " is missing: the machine has this operation\n");
            }
        }
    }
    say_no_initialisation(words)
}

fn say_no_initialisation(words: &mut Vec<u8>) -> Result<(), Memory> {
    say(
        words,
        "INITIALISATION is missing: the component has variables\n",
    )
}

// The byte at which an operation begins.
fn first_token(operation: &RawOperation) -> usize {
    match operation.outputs.first() {
        Some(output) => output.at,
        None => operation.name.at,
    }
}

// A header that is not the machine's.
fn say_header(
    alloc: Global,
    words: &mut Vec<u8>,
    sources: &[Source<'_>],
    operation: &RawOperation,
) -> Result<(), Memory> {
    let name = operation.name.text.as_bytes();
    if let Some(machine) = machine_of(alloc, sources)? {
        if let Some(other) = operation_named(&machine, name) {
            say(words, "the header is not the machine's: ")?;
            write_header(words, other)?;
            say(words, " there, ")?;
            write_header(words, operation)?;
            return say(words, " here\n");
        }
    }
    say(words, "the machine has no operation ")?;
    say_quoted(words, name)?;
    say(words, "\n")
}

// `` `r <-- op(a, b)` ``.
fn write_header(words: &mut Vec<u8>, operation: &RawOperation) -> Result<(), Memory> {
    say(words, "`")?;
    if !operation.outputs.is_empty() {
        write_names(words, &operation.outputs)?;
        say(words, " <-- ")?;
    }
    words.extend_from_slice(operation.name.text.as_bytes())?;
    if !operation.inputs.is_empty() {
        say(words, "(")?;
        write_names(words, &operation.inputs)?;
        say(words, ")")?;
    }
    say(words, "`")
}

fn write_names(words: &mut Vec<u8>, names: &[RawName]) -> Result<(), Memory> {
    for (index, name) in names.iter().enumerate() {
        if index > 0 {
            say(words, ", ")?;
        }
        words.extend_from_slice(name.text.as_bytes())?;
    }
    Ok(())
}

// ---- values
// Values of constants.
fn say_value(
    alloc: Global,
    words: &mut Vec<u8>,
    sources: &[Source<'_>],
    tree: &RawComponent,
    token: &[u8],
    place: usize,
) -> Result<(), Memory> {
    if place == tree.name.at {
        return say_without_value(alloc, words, sources, tree);
    }
    if !is_constant(alloc, sources, token)? {
        say(words, "no constant is called ")?;
        say_quoted(words, token)?;
        return say(words, "\n");
    }
    say_quoted(words, token)?;
    if is_behind_another(tree, token, place) {
        return say(words, " has a value already\n");
    }
    say(
        words,
        " is given something other than a number from MININT to MAXINT, a truth value or an element of its type\n",
    )
}

// Whether an entry for the name stands before this place.
fn is_behind_another(tree: &RawComponent, name: &[u8], place: usize) -> bool {
    for entry in values(tree) {
        if entry.name.at < place && entry.name.text.as_bytes() == name {
            return true;
        }
    }
    false
}

// The first constant that has no value.
fn say_without_value(
    alloc: Global,
    words: &mut Vec<u8>,
    sources: &[Source<'_>],
    tree: &RawComponent,
) -> Result<(), Memory> {
    for source in sources {
        if source.kind.is_component() {
            if let Some(above) = tree_of(alloc, *source)? {
                if let Some(name) = without_value(constants(&above), tree) {
                    say_quoted(words, name)?;
                    say(words, " has no value: add ")?;
                    words.push(b'`')?;
                    words.extend_from_slice(name)?;
                    return say(words, " = ..` to VALUES\n");
                }
            }
        }
    }
    say(words, "a constant has no value: add an entry to VALUES\n")
}

// The first of these names for which the component has no entry.
fn without_value<'a>(names: &'a [RawName], tree: &RawComponent) -> Option<&'a [u8]> {
    for name in names {
        if entries_for(tree, name.text.as_bytes()) == 0 {
            return Some(name.text.as_bytes());
        }
    }
    None
}
