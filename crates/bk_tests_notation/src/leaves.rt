// Formulas of one word.

use crate::error::Unread;
use crate::types::type_of;
use bk_form::{Domain, Form, Part};
use bk_tests_fixtures::{leaf, literal, variable};
use std::alloc::Global;

const NAMES: &[(&str, Domain)] = &[
    ("INTEGER", Domain::Integer),
    ("NATURAL", Domain::Natural),
    ("NATURAL1", Domain::Natural1),
    ("BOOL", Domain::Bool),
    ("C", Domain::Enum(0)),
    ("D", Domain::Enum(7)),
];

// The formula of a word that is no operator.
pub(crate) fn one_word(alloc: Global, letters: &str, word: &str) -> Result<Form, Unread> {
    if let Some(number) = place(letters, word) {
        return Ok(variable(alloc, number)?);
    }
    if let Some(domain) = name(word) {
        return Ok(leaf(alloc, Part::Name(domain))?);
    }
    if let Some(ty) = word.strip_prefix("{}") {
        return Ok(leaf(alloc, Part::Empty(type_of(alloc, ty)?))?);
    }
    match constant(alloc, word)? {
        Some(form) => Ok(form),
        None => numbered(alloc, word),
    }
}

// The place of a word of one letter in the list.
fn place(letters: &str, word: &str) -> Option<u32> {
    if word.len() != 1 {
        return None;
    }
    let letter = word.as_bytes().first()?;
    let mut place = 0u32;
    for other in letters.as_bytes() {
        if letter == other {
            return Some(place);
        }
        place = place.saturating_add(1);
    }
    None
}

fn name(word: &str) -> Option<Domain> {
    for (name, domain) in NAMES {
        if *name == word {
            return Some(*domain);
        }
    }
    None
}

// A truth value or a predicate without parts.
fn constant(alloc: Global, word: &str) -> Result<Option<Form>, Unread> {
    match word {
        "TRUE" => Ok(Some(leaf(alloc, Part::Bool(true))?)),
        "FALSE" => Ok(Some(leaf(alloc, Part::Bool(false))?)),
        "btrue" => Ok(Some(leaf(alloc, Part::True)?)),
        "bfalse" => Ok(Some(leaf(alloc, Part::False)?)),
        _ => Ok(None),
    }
}

// A bound number, an element or a number.
fn numbered(alloc: Global, word: &str) -> Result<Form, Unread> {
    if let Some(index) = behind(word, "b") {
        return Ok(leaf(alloc, Part::Bound(index))?);
    }
    if let Some(index) = behind(word, "c") {
        return Ok(leaf(alloc, Part::Elem { set: 0, index })?);
    }
    if let Some(index) = behind(word, "d") {
        return Ok(leaf(alloc, Part::Elem { set: 7, index })?);
    }
    match word.parse::<i128>() {
        Ok(value) => Ok(literal(alloc, value)?),
        Err(_) => Err(Unread::Text),
    }
}

// The number after this letter.
fn behind(word: &str, letter: &str) -> Option<u32> {
    word.strip_prefix(letter)?.parse::<u32>().ok()
}
