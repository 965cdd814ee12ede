//! What cannot be written.

use crate::say::{is_one_of, say, say_number, say_quoted, word_at};
use crate::source::Source;
use crate::tree::is_constant;
use bk_form::Token;
use bk_io::Memory;
use std::alloc::Global;

/// A name that cannot be written, or not there.
pub(crate) fn say_written(
    alloc: Global,
    words: &mut Vec<u8>,
    sources: &[Source<'_>],
    source: Source<'_>,
    list: &[Token],
    index: usize,
) -> Result<(), Memory> {
    let text = source.text;
    let name = word_at(text, list, index);
    if stands_before(text, list, index) {
        say_quoted(words, name)?;
        return say(words, " is assigned twice at once\n");
    }
    if is_constant(alloc, sources, name)? {
        say_quoted(words, name)?;
        return say(
            words,
            " is a constant: only variables, outputs and local variables are assigned\n",
        );
    }
    let (names, terms) = counts(text, list, index);
    if begins_list(text, list, index) && terms > 0 && names != terms {
        return say_counts(words, names, terms);
    }
    say_quoted(words, name)?;
    if is_written_beside(text, list, index) {
        return say(words, " is assigned on both sides of ||\n");
    }
    say(
        words,
        " cannot be assigned here: only the variables of this component, outputs and local variables can\n",
    )
}

// Whether no name of the same list stands before a token.
fn begins_list(text: &[u8], list: &[Token], index: usize) -> bool {
    index == 0 || !is_comma(text, list, index - 1)
}

fn say_counts(words: &mut Vec<u8>, names: usize, terms: usize) -> Result<(), Memory> {
    say(words, "the number of variables on the left of := is ")?;
    say_number(words, names)?;
    say(words, ", and the number of expressions on the right is ")?;
    say_number(words, terms)?;
    say(words, "\n")
}

// How many names and how many terms an assignment has whose names begin at a token; no terms where none begins there.
fn counts(text: &[u8], list: &[Token], index: usize) -> (usize, usize) {
    let mut names = 1usize;
    for place in index..list.len() {
        match word_at(text, list, place.saturating_add(1)) {
            b"," => names = names.saturating_add(1),
            b":=" => return (names, terms_from(text, list, place.saturating_add(2))),
            _ if is_comma(text, list, place) => {}
            _ => return (names, 0),
        }
    }
    (names, 0)
}

fn is_comma(text: &[u8], list: &[Token], place: usize) -> bool {
    word_at(text, list, place) == b",".as_slice()
}

// How many terms begin at a token, with commas between that stand in no brackets.
fn terms_from(text: &[u8], list: &[Token], begin: usize) -> usize {
    let mut terms = 1usize;
    let mut open = 0usize;
    for place in begin..list.len() {
        let word = word_at(text, list, place);
        if is_one_of(word, &["(", "{", "["]) {
            open = open.saturating_add(1);
        } else if is_one_of(word, &[")", "}", "]"]) {
            open = open.saturating_sub(1);
        } else if open == 0 && word == b",".as_slice() {
            terms = terms.saturating_add(1);
        } else if open == 0 && ends_statement(word) {
            return terms;
        }
    }
    terms
}

fn ends_statement(word: &[u8]) -> bool {
    is_one_of(
        word,
        &[";", "||", "END", "ELSE", "ELSIF", "WHEN", "OR", "INVARIANT"],
    )
}

// Whether the name of a token stands before it, in the list of names that it stands in.
fn stands_before(text: &[u8], list: &[Token], index: usize) -> bool {
    let name = word_at(text, list, index);
    let mut place = index;
    for _ in 0..index {
        if place < 2 || !is_comma(text, list, place - 1) {
            return false;
        }
        place -= 2;
        if word_at(text, list, place) == name {
            return true;
        }
    }
    false
}

// Whether the name of a token is written before it, and `||` stands between, with no `;` outside of blocks that end between.
fn is_written_beside(text: &[u8], list: &[Token], index: usize) -> bool {
    let name = word_at(text, list, index);
    let mut is_beside = false;
    for back in 0..index {
        let place = index - 1 - back;
        let word = word_at(text, list, place);
        if word == b"||".as_slice() {
            is_beside = true;
        }
        if word == b"OPERATIONS".as_slice() {
            return false;
        }
        if is_beside && word == name && is_target(text, list, place) {
            return true;
        }
    }
    false
}

// Whether something is written to the name at a token.
fn is_target(text: &[u8], list: &[Token], place: usize) -> bool {
    is_one_of(
        word_at(text, list, place.saturating_add(1)),
        &[":=", "::", ":", ",", "("],
    )
}
