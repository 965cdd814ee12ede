//! Faults of project files, and components that are others than their lines say.

use crate::say::{say, say_number, say_quoted};
use crate::source::{Source, SourceKind};
use crate::tree::tree_of;
use bk_io::Memory;
use bk_limits::GREATEST_MAXINT;
use bk_places::line_text;
use bk_raw::{ComponentKind, RawComponent};
use std::alloc::Global;

/// A line of the project file.
pub(crate) fn say_line_fault(
    words: &mut Vec<u8>,
    source: Source<'_>,
    line: usize,
) -> Result<(), Memory> {
    say(words, source.name)?;
    say(words, ":")?;
    say_number(words, line)?;
    say(words, "\n    ")?;
    let text = line_text(source.text, line);
    words.extend_from_slice(text)?;
    say(words, "\n")?;
    if text.is_empty() {
        return say(
            words,
            "a machine line is missing: the line machine FILE comes before those of all other components\n",
        );
    }
    match first_word(text) {
        b"range" => say_range(words),
        b"machine" => say(
            words,
            "a project has one line machine FILE, before those of all other components\n",
        ),
        b"refinement" => say(
            words,
            "a line refinement FILE comes after that of the machine and before that of the implementation\n",
        ),
        b"implementation" => say(
            words,
            "a project has at most one line implementation FILE, after those of all other components\n",
        ),
        b"proofs" => say(words, "after proofs comes the name of a file\n"),
        _ => say(
            words,
            "a line is range M, machine FILE, refinement FILE, implementation FILE or proofs FILE\n",
        ),
    }
}

fn say_range(words: &mut Vec<u8>) -> Result<(), Memory> {
    say(
        words,
        "a project has at most one line range M, before that of the machine, where M is MAXINT: the digits of a number from 1 to ",
    )?;
    say_number(words, GREATEST_MAXINT as usize)?;
    say(words, "\n")
}

// The bytes before the first blank.
fn first_word(line: &[u8]) -> &[u8] {
    match line.iter().position(|byte| *byte == b' ') {
        Some(end) => &line[..end],
        None => line,
    }
}

/// A component of another kind, or below another one, than its line says.
pub(crate) fn say_component_fault(
    alloc: Global,
    words: &mut Vec<u8>,
    sources: &[Source<'_>],
    source: Source<'_>,
) -> Result<(), Memory> {
    let Some(tree) = tree_of(alloc, source)? else {
        return Ok(());
    };
    if !is_for(source.kind, &tree.kind) {
        say(words, "the line of the project file says ")?;
        say(words, line_word(source.kind))?;
        say(words, ", and the text begins with ")?;
        say(words, head_word(&tree.kind))?;
        return say(words, "\n");
    }
    say_other_above(alloc, words, sources, source, &tree)
}

// Whether such a line is for components of this kind.
fn is_for(line: SourceKind, kind: &ComponentKind) -> bool {
    match kind {
        ComponentKind::Machine => line == SourceKind::Machine,
        ComponentKind::Refinement => line == SourceKind::Refinement,
        ComponentKind::Implementation => line == SourceKind::Implementation,
    }
}

fn line_word(kind: SourceKind) -> &'static str {
    match kind {
        SourceKind::Machine => "machine",
        SourceKind::Refinement => "refinement",
        _ => "implementation",
    }
}

fn head_word(kind: &ComponentKind) -> &'static str {
    match kind {
        ComponentKind::Machine => "MACHINE",
        ComponentKind::Refinement => "REFINEMENT",
        ComponentKind::Implementation => "IMPLEMENTATION",
    }
}

// A component that refines another one than the one above it.
fn say_other_above(
    alloc: Global,
    words: &mut Vec<u8>,
    sources: &[Source<'_>],
    source: Source<'_>,
    tree: &RawComponent,
) -> Result<(), Memory> {
    if let Some(name) = &tree.refines {
        say(words, "it refines ")?;
        say_quoted(words, name.text.as_bytes())?;
    }
    if let Some(above) = tree_above(alloc, sources, source)? {
        say(words, ", and the component above it is ")?;
        say_quoted(words, above.name.text.as_bytes())?;
    }
    say(words, "\n")
}

// The component above that of a source.
fn tree_above(
    alloc: Global,
    sources: &[Source<'_>],
    source: Source<'_>,
) -> Result<Option<RawComponent>, Memory> {
    let mut last = None;
    for other in sources {
        if other.name == source.name {
            return tree_of_one(alloc, last);
        }
        if other.kind.is_component() {
            last = Some(*other);
        }
    }
    Ok(None)
}

fn tree_of_one(alloc: Global, source: Option<Source<'_>>) -> Result<Option<RawComponent>, Memory> {
    match source {
        Some(source) => tree_of(alloc, source),
        None => Ok(None),
    }
}
