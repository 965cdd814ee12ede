//! The text of `--help`, and the man page, of one table.

ghost use Rattle.std.specs.Prelude.{◌≡◌, IfOk, IfErr};
ghost use Rattle.bk_io.specs.Files.{Files};
ghost use Rattle.bk_proof_words.specs.declared.task.Task.TheVariants.{Help, ManPage};
ghost use Rattle.bk_proof_program.specs.Answers.{IsAnswer};
ghost use Rattle.bk_proof_program.specs.Said.{IsToldAnswer};

use crate::answer::Answer;
use bk_io::Memory;
use bk_verbs::{Status, Stop};
use std::alloc::Global;

/// A verb with its words, and what it writes.
struct Entry {
    words: &'static str,
    text: &'static str,
}

/// The line of wrong words.
pub(crate) const USAGE: &str = "usage: bkproof VERB FILE [FILE] [OPTION], or bkproof --help\n";

const PURPOSE: &str =
    "Shows proofs, faults and the status of developments in the classical B Method. Whether an obligation is proved is decided by bkit.";

const ENTRIES: &[Entry] = &[
    Entry {
        words: "goal PROJECT NAME [--at K]",
        text: "the sequents of the obligation NAME that are open after rule K of its script, or after the last rule that fits, and why the next rule does not fit",
    },
    Entry {
        words: "list PROJECT [--open] [--json]",
        text: "a line for each obligation, or each open one: what it asks, where it comes from, its state and its script; then scripts that belong to no obligation",
    },
    Entry {
        words: "explain PROJECT [CALLS]",
        text: "the first fault of the files in words, with its line and what could stand there; explain --image IMAGE CALLS does so of an image",
    },
    Entry {
        words: "prune PROJECT FILE",
        text: "the proof file FILE without the rules whose results nothing uses, and with the numbers of hypotheses changed accordingly",
    },
    Entry {
        words: "report PROJECT [--json | --html]",
        text: "the status of the development: the files with their SHA-256, each obligation, sums; as lines, as JSON, or as a page of HTML",
    },
    Entry {
        words: "--help",
        text: "this text",
    },
    Entry {
        words: "--man",
        text: "the man page",
    },
];

/// The most characters of a line of help.
const WIDTH: usize = 78;

const STATUS: &str =
    "Exit status: 0 if the work is done and nothing is left; 4 if it is done and something is open; 1 for wrong words or an unknown NAME; that of bkit if a file is missing (2), refused (3) or not readable (10), if the output fails (11) or if there is no memory (12); explain ends with the status that bkit has at the fault.";

/// The text of `--help`.
pub(crate) fn help_answer(alloc: Global) -> Result<Answer, Stop>
    ensures told { IfOk result (λ a. (files : Files) → IsToldAnswer files Help a) }
    ensures ok { IfOk result IsAnswer }
    ensures memory { IfErr result (λ stop. stop ≡ Stop.Memory) }
{
    Ok(Answer::Whole(help_text(alloc)?, Status::Done))
}

/// The man page.
pub(crate) fn man_answer(alloc: Global) -> Result<Answer, Stop>
    ensures told { IfOk result (λ a. (files : Files) → IsToldAnswer files ManPage a) }
    ensures ok { IfOk result IsAnswer }
    ensures memory { IfErr result (λ stop. stop ≡ Stop.Memory) }
{
    Ok(Answer::Whole(man_page(alloc)?, Status::Done))
}

fn help_text(alloc: Global) -> Result<Vec<u8>, Memory> {
    let mut text = Vec::new(alloc);
    put(&mut text, USAGE)?;
    put(&mut text, "\n")?;
    put_lines(&mut text, PURPOSE, "")?;
    put(&mut text, "\n")?;
    for entry in ENTRIES {
        put_lines(&mut text, entry.words, "  ")?;
        put_lines(&mut text, entry.text, "      ")?;
    }
    put(&mut text, "\n")?;
    put_lines(&mut text, STATUS, "")?;
    Ok(text)
}

// Words in lines that begin so.
fn put_lines(text: &mut Vec<u8>, words: &str, indent: &str) -> Result<(), Memory> {
    let mut rest = words.as_bytes();
    let mut column = 0usize;
    for _ in 0..words.len() {
        let (word, behind) = first_word(rest);
        let next = column.saturating_add(word.len()).saturating_add(1);
        if column == 0 {
            put(text, indent)?;
            column = indent.len();
        } else if next > WIDTH {
            put(text, "\n")?;
            put(text, indent)?;
            column = indent.len();
        } else {
            put(text, " ")?;
            column = column.saturating_add(1);
        }
        text.extend_from_slice(word)?;
        column = column.saturating_add(word.len());
        if behind.is_empty() {
            return put(text, "\n");
        }
        rest = behind;
    }
    Ok(())
}

// What stands before the first blank, and what after it.
fn first_word(text: &[u8]) -> (&[u8], &[u8]) {
    match text.iter().position(|byte| *byte == b' ') {
        Some(end) => (&text[..end], &text[end + 1..]),
        None => (text, &[]),
    }
}

// In the macros of man(7).
fn man_page(alloc: Global) -> Result<Vec<u8>, Memory> {
    let mut text = Vec::new(alloc);
    put(
        &mut text,
        ".TH BKPROOF 1\n.SH NAME\nbkproof \\- shows proofs, faults and the status of developments\n.SH SYNOPSIS\n",
    )?;
    for entry in ENTRIES {
        put(&mut text, ".B bkproof ")?;
        put_roff(&mut text, entry.words)?;
        put(&mut text, "\n.br\n")?;
    }
    put(&mut text, ".SH DESCRIPTION\n")?;
    put_roff(&mut text, PURPOSE)?;
    put(&mut text, "\n")?;
    for entry in ENTRIES {
        put(&mut text, ".TP\n.B ")?;
        put_roff(&mut text, entry.words)?;
        put(&mut text, "\n")?;
        put_roff(&mut text, entry.text)?;
        put(&mut text, "\n")?;
    }
    put(&mut text, ".SH EXIT STATUS\n")?;
    put_roff(&mut text, STATUS)?;
    put(&mut text, "\n")?;
    Ok(text)
}

fn put(text: &mut Vec<u8>, words: &str) -> Result<(), Memory> {
    text.extend_from_slice(words.as_bytes())?;
    Ok(())
}

// Words in which a hyphen is one and no dash.
fn put_roff(text: &mut Vec<u8>, words: &str) -> Result<(), Memory> {
    for byte in words.as_bytes() {
        if *byte == b'-' {
            text.push(b'\\')?;
        }
        text.push(*byte)?;
    }
    Ok(())
}
