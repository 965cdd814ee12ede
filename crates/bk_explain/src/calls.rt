//! Lines of call scripts.

use crate::say::{say, say_integer, say_number, say_quoted, tokens_of, word_at, written};
use crate::source::{Source, SourceKind};
use bk_code::{CellKind, Image, OpEntry, Parameter};
use bk_form::{Token, TokenKind};
use bk_image::{LoadFault, load};
use bk_io::Memory;
use bk_places::line_text;
use bk_reasons::nearest;
use std::alloc::Global;

/// A line of a call script that is at fault, from 1.
pub(crate) fn say_calls(
    alloc: Global,
    words: &mut Vec<u8>,
    sources: &[Source<'_>],
    line: usize,
) -> Result<(), Memory> {
    let mut text: &[u8] = &[];
    for source in sources {
        if source.kind == SourceKind::Calls {
            text = line_text(source.text, line);
            say_at(words, *source, line, text)?;
        }
    }
    let list = tokens_of(alloc, text)?;
    if !is_call(text, &list) {
        return say(
            words,
            "a call is the name of an operation and, in parentheses with commas between, its arguments: numbers, TRUE, FALSE and names of elements, as in inc(4)\n",
        );
    }
    match image_of(alloc, sources)? {
        Some(image) => say_call(alloc, words, &image, text, &list),
        None => Ok(()),
    }
}

fn say_at(words: &mut Vec<u8>, source: Source<'_>, line: usize, text: &[u8]) -> Result<(), Memory> {
    say(words, source.name)?;
    say(words, ":")?;
    say_number(words, line)?;
    say(words, "\n    ")?;
    words.extend_from_slice(text)?;
    say(words, "\n")
}

// The image that is called, if it is there.
fn image_of(alloc: Global, sources: &[Source<'_>]) -> Result<Option<Image>, Memory> {
    for source in sources {
        if source.kind == SourceKind::Image {
            return match load(alloc, source.text) {
                Ok(image) => Ok(Some(image)),
                Err(LoadFault::Memory) => Err(Memory),
                Err(_) => Ok(None),
            };
        }
    }
    Ok(None)
}

// ---- how a call is written
// Whether the tokens are a name, and perhaps arguments in parentheses.
fn is_call(text: &[u8], list: &[Token]) -> bool {
    if !is_name(list, 0) {
        return false;
    }
    if list.len() == 1 {
        return true;
    }
    let last = list.len().saturating_sub(1);
    word_at(text, list, 1) == b"(".as_slice()
        && word_at(text, list, last) == b")".as_slice()
        && (last == 2 || are_arguments(text, list, last))
}

// Whether arguments stand from the third token up to the last, with commas between.
fn are_arguments(text: &[u8], list: &[Token], last: usize) -> bool {
    let mut place = 2usize;
    for _ in 2..last {
        let Some(behind) = behind_argument(text, list, place) else {
            return false;
        };
        if behind == last {
            return true;
        }
        if word_at(text, list, behind) != b",".as_slice() {
            return false;
        }
        place = behind.saturating_add(1);
    }
    false
}

// The number of the token after the argument that begins at a token, if one does.
fn behind_argument(text: &[u8], list: &[Token], place: usize) -> Option<usize> {
    let next = place.saturating_add(1);
    if is_word_argument(text, list, place) {
        return Some(next);
    }
    if word_at(text, list, place) == b"-".as_slice() && is_number(list, next) {
        return Some(next.saturating_add(1));
    }
    None
}

// Whether a token by itself is an argument.
fn is_word_argument(text: &[u8], list: &[Token], place: usize) -> bool {
    match list.get(place) {
        Some(token) => match &token.kind {
            TokenKind::Number(_) | TokenKind::Name(_) => true,
            _ => is_truth(written(text, token)),
        },
        None => false,
    }
}

// Whether a token is a number.
fn is_number(list: &[Token], place: usize) -> bool {
    match list.get(place) {
        Some(token) => matches!(token.kind, TokenKind::Number(_)),
        None => false,
    }
}

// Whether a token is a name.
fn is_name(list: &[Token], place: usize) -> bool {
    match list.get(place) {
        Some(token) => matches!(token.kind, TokenKind::Name(_)),
        None => false,
    }
}

fn is_truth(word: &[u8]) -> bool {
    matches!(word, b"TRUE" | b"FALSE")
}

// ---- what a call asks for
// What is wrong with a line that is written as a call.
fn say_call(
    alloc: Global,
    words: &mut Vec<u8>,
    image: &Image,
    text: &[u8],
    list: &[Token],
) -> Result<(), Memory> {
    let name = word_at(text, list, 0);
    let Some(operation) = operation_named(image, name) else {
        return say_unknown(alloc, words, image, name);
    };
    let inputs = operation.inputs.as_slice();
    let given = count_of_arguments(text, list);
    if given != inputs.len() {
        return say_count(words, name, inputs.len(), given);
    }
    say_argument(words, image, inputs, text, list)
}

// The first operation with a name.
fn operation_named<'a>(image: &'a Image, name: &[u8]) -> Option<&'a OpEntry> {
    image
        .ops
        .as_slice()
        .iter()
        .find(|entry| entry.name.as_slice() == name)
}

fn say_unknown(
    alloc: Global,
    words: &mut Vec<u8>,
    image: &Image,
    name: &[u8],
) -> Result<(), Memory> {
    say(words, "no operation is called ")?;
    say_quoted(words, name)?;
    let mut names = Vec::new(alloc);
    for operation in image.ops.as_slice() {
        names.push(operation.name.as_slice())?;
    }
    if let Some(index) = nearest(alloc, name, &names)? {
        if let Some(near) = names.get(index) {
            say(words, "; the nearest name is ")?;
            say_quoted(words, *near)?;
        }
    }
    say(words, "\n")
}

// How many arguments stand in the parentheses.
fn count_of_arguments(text: &[u8], list: &[Token]) -> usize {
    if list.len() <= 3 {
        return 0;
    }
    let commas = list
        .iter()
        .filter(|token| written(text, token) == b",".as_slice())
        .count();
    commas.saturating_add(1)
}

fn say_count(words: &mut Vec<u8>, name: &[u8], wanted: usize, given: usize) -> Result<(), Memory> {
    say_quoted(words, name)?;
    say(words, " takes ")?;
    match wanted {
        0 => say(words, "no arguments")?,
        1 => say(words, "1 argument")?,
        count => {
            say_number(words, count)?;
            say(words, " arguments")?;
        }
    }
    say(words, ", and ")?;
    match given {
        0 => say(words, "none is given\n"),
        1 => say(words, "1 is given\n"),
        count => {
            say_number(words, count)?;
            say(words, " are given\n")
        }
    }
}

// The first argument that is not of the kind of its input; where each is, the first number out of range.
fn say_argument(
    words: &mut Vec<u8>,
    image: &Image,
    inputs: &[Parameter],
    text: &[u8],
    list: &[Token],
) -> Result<(), Memory> {
    let mut place = 2usize;
    for (index, input) in inputs.iter().enumerate() {
        if !is_of_kind(image, input.kind, text, list, place) {
            return say_kind(words, image, input.kind, index, text, list, place);
        }
        place = next_argument(text, list, place);
    }
    say(words, "a number is out of range: numbers go from -")?;
    say_integer(words, image.int_max())?;
    say(words, " to ")?;
    say_integer(words, image.int_max())?;
    say(words, "\n")
}

// The number of the token at which the argument after this one begins.
fn next_argument(text: &[u8], list: &[Token], place: usize) -> usize {
    match behind_argument(text, list, place) {
        Some(behind) => behind.saturating_add(1),
        None => place,
    }
}

// Whether the argument that begins at a token is of a kind.
fn is_of_kind(image: &Image, kind: CellKind, text: &[u8], list: &[Token], place: usize) -> bool {
    let word = word_at(text, list, place);
    match kind {
        CellKind::Integer => is_number(list, place) || word == b"-".as_slice(),
        CellKind::Bool => is_truth(word),
        CellKind::Set(number) => is_element(image, number, word),
    }
}

// Whether a word is the name of an element of the set with a number.
fn is_element(image: &Image, number: u32, word: &[u8]) -> bool {
    match image.sets.as_slice().get(number as usize) {
        Some(elements) => elements
            .as_slice()
            .iter()
            .any(|element| element.as_slice() == word),
        None => false,
    }
}

fn say_kind(
    words: &mut Vec<u8>,
    image: &Image,
    kind: CellKind,
    index: usize,
    text: &[u8],
    list: &[Token],
    place: usize,
) -> Result<(), Memory> {
    say(words, "argument ")?;
    say_number(words, index.saturating_add(1))?;
    say(words, " is ")?;
    say_quoted(words, word_at(text, list, place))?;
    say(words, ", and ")?;
    match kind {
        CellKind::Integer => say(words, "a number is expected\n"),
        CellKind::Bool => say(words, "TRUE or FALSE is expected\n"),
        CellKind::Set(number) => say_elements(words, image, number),
    }
}

// The elements of a set, of which one is wanted.
fn say_elements(words: &mut Vec<u8>, image: &Image, number: u32) -> Result<(), Memory> {
    say(words, "one of these is expected:")?;
    if let Some(elements) = image.sets.as_slice().get(number as usize) {
        for element in elements.as_slice() {
            say(words, " ")?;
            words.extend_from_slice(element.as_slice())?;
        }
    }
    say(words, "\n")
}
