//! Words, places and lines.

use crate::source::Source;
use bk_form::Token;
use bk_io::Memory;
use bk_lex::{LexFault, tokens};
use bk_places::{line_text, place_of};
use itoa::Buffer;
use std::alloc::Global;

pub(crate) fn say(words: &mut Vec<u8>, text: &str) -> Result<(), Memory> {
    words.extend_from_slice(text.as_bytes())?;
    Ok(())
}

pub(crate) fn say_number(words: &mut Vec<u8>, number: usize) -> Result<(), Memory> {
    words.extend_from_slice(Buffer::new().format(number).as_bytes())?;
    Ok(())
}

pub(crate) fn say_integer(words: &mut Vec<u8>, number: i64) -> Result<(), Memory> {
    words.extend_from_slice(Buffer::new().format(number).as_bytes())?;
    Ok(())
}

/// Bytes between back quotes.
pub(crate) fn say_quoted(words: &mut Vec<u8>, bytes: &[u8]) -> Result<(), Memory> {
    words.push(b'`')?;
    words.extend_from_slice(bytes)?;
    words.push(b'`')?;
    Ok(())
}

/// `Tally.mch:3:12`.
pub(crate) fn say_place(words: &mut Vec<u8>, source: Source<'_>, at: usize) -> Result<(), Memory> {
    let place = place_of(source.text, at);
    say(words, source.name)?;
    say(words, ":")?;
    say_number(words, place.line)?;
    say(words, ":")?;
    say_number(words, place.column)
}

/// The place of a byte, its line, and a caret below it, each on a line.
pub(crate) fn say_line(words: &mut Vec<u8>, source: Source<'_>, at: usize) -> Result<(), Memory> {
    let place = place_of(source.text, at);
    say_place(words, source, at)?;
    say(words, "\n    ")?;
    words.extend_from_slice(line_text(source.text, place.line))?;
    say(words, "\n    ")?;
    for _ in 1..place.column {
        words.push(b' ')?;
    }
    say(words, "^\n")
}

/// The tokens of a text; none where it has a fault of its own.
pub(crate) fn tokens_of(alloc: Global, text: &[u8]) -> Result<Vec<Token>, Memory> {
    match tokens(alloc, text) {
        Ok(found) => Ok(found),
        Err(LexFault::Memory) => Err(Memory),
        Err(_) => Ok(Vec::new(alloc)),
    }
}

/// How a token is written.
pub(crate) fn written<'a>(text: &'a [u8], token: &Token) -> &'a [u8] {
    if token.start <= token.end && token.end <= text.len() {
        return &text[token.start..token.end];
    }
    &[]
}

/// How the token with a number is written; nothing where there is none.
pub(crate) fn word_at<'a>(text: &'a [u8], list: &[Token], index: usize) -> &'a [u8] {
    match list.get(index) {
        Some(token) => written(text, token),
        None => &[],
    }
}

/// The number of the token that starts at a byte.
pub(crate) fn token_at(tokens: &[Token], at: usize) -> Option<usize> {
    tokens.iter().position(|token| token.start == at)
}

/// Whether a word is one of these.
pub(crate) fn is_one_of(word: &[u8], words: &[&str]) -> bool {
    for other in words {
        if other.as_bytes() == word {
            return true;
        }
    }
    false
}

/// Whether a word begins a clause.
pub(crate) fn is_clause(word: &[u8]) -> bool {
    is_one_of(
        word,
        &[
            "SETS",
            "CONSTANTS",
            "CONCRETE_CONSTANTS",
            "PROPERTIES",
            "VARIABLES",
            "ABSTRACT_VARIABLES",
            "CONCRETE_VARIABLES",
            "INVARIANT",
            "ASSERTIONS",
            "VALUES",
            "INITIALISATION",
            "OPERATIONS",
        ],
    )
}

/// The last word of a clause before a token.
pub(crate) fn clause_before<'a>(text: &'a [u8], list: &[Token], index: usize) -> &'a [u8] {
    let mut clause: &'a [u8] = b"";
    for (number, token) in list.iter().enumerate() {
        let word = written(text, token);
        if number < index && is_clause(word) {
            clause = word;
        }
    }
    clause
}
