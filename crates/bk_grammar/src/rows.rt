//! The grammar of components and of proof files, as rows. Operators bind as they like here: the strengths that the notation gives them
//! choose among readings. A clause may stand more than once. Which texts are components is told elsewhere; this grammar serves to say
//! what could stand at a place.

use crate::texts::{additions_text, rows_text, words_text};
use bk_io::Memory;
use bk_lines::first_line;
use std::alloc::Global;

/// What stands in a row: a token, or a part that rows are for.
#[derive(Clone, Copy)]
pub enum Symbol {
    /// The token that is written so.
    Text(&'static [u8]),
    /// A name.
    Name,
    /// A number.
    Number,
    /// A name with its level.
    LevelName,
    /// A name with level 0: the value of a variable before a substitution.
    OldName,
    /// A bound variable of a printed formula.
    BoundName,
    /// A reserved word.
    Reserved,
    /// A part, as it is named in the rows.
    Part(&'static [u8]),
}

impl Symbol {
    /// Whether both are the same.
    pub fn equal(&self, other: &Symbol) -> bool {
        match (self, other) {
            (Symbol::Text(one), Symbol::Text(two)) => *one == *two,
            (Symbol::Part(one), Symbol::Part(two)) => *one == *two,
            (Symbol::Name, Symbol::Name) => true,
            (Symbol::Number, Symbol::Number) => true,
            (Symbol::LevelName, Symbol::LevelName) => true,
            (Symbol::OldName, Symbol::OldName) => true,
            (Symbol::BoundName, Symbol::BoundName) => true,
            (Symbol::Reserved, Symbol::Reserved) => true,
            _ => false,
        }
    }

    /// Whether it is this part.
    pub fn is_part(&self, name: &[u8]) -> bool {
        match self {
            Symbol::Part(part) => *part == name,
            _ => false,
        }
    }
}

/// A component.
pub const COMPONENT: &str = "<component>";

/// A file of scripts.
pub const PROOF_FILE: &str = "<proof-file>";

/// A row: the part is written as these, one after another.
#[derive(Drop)]
pub struct Row {
    pub part: &'static [u8],
    pub symbols: Vec<Symbol>,
}

/// The rows of all parts. What printed formulas have more than terms of components has rows for files of scripts alone.
pub fn rows(alloc: Global, start: &str) -> Result<Vec<Row>, Memory> {
    let mut rows = Vec::new(alloc);
    add_rows(alloc, &mut rows, rows_text())?;
    if start.as_bytes() == PROOF_FILE.as_bytes() {
        add_rows(alloc, &mut rows, additions_text())?;
    }
    Ok(rows)
}

// Adds the rows of a text, a row a line.
fn add_rows(alloc: Global, rows: &mut Vec<Row>, text: &'static [u8]) -> Result<(), Memory> {
    let mut rest = text;
    for _ in 0..text.len() {
        let Some((line, behind)) = first_line(rest) else {
            return Ok(());
        };
        rows.push(row_of(alloc, line)?)?;
        rest = behind;
    }
    Ok(())
}

// The row of a line: the part, and what it is written as, with a blank between two.
fn row_of(alloc: Global, line: &'static [u8]) -> Result<Row, Memory> {
    let (part, mut rest) = first_word(line);
    let mut symbols = Vec::new(alloc);
    for _ in 0..line.len() {
        if rest.is_empty() {
            return Ok(Row { part, symbols });
        }
        let (word, behind) = first_word(rest);
        symbols.push(symbol_of(word))?;
        rest = behind;
    }
    Ok(Row { part, symbols })
}

// What stands before the first blank, and what after it.
fn first_word(text: &[u8]) -> (&[u8], &[u8]) {
    match text.iter().position(|byte| *byte == b' ') {
        Some(end) => (&text[..end], &text[end + 1..]),
        None => (text, &[]),
    }
}

// What a word of a row is.
fn symbol_of(word: &'static [u8]) -> Symbol {
    if !is_in_brackets(word) {
        return Symbol::Text(word);
    }
    if word == b"<name>".as_slice() {
        return Symbol::Name;
    }
    if word == b"<number>".as_slice() {
        return Symbol::Number;
    }
    if word == b"<level-name>".as_slice() {
        return Symbol::LevelName;
    }
    if word == b"<old-name>".as_slice() {
        return Symbol::OldName;
    }
    if word == b"<bound-name>".as_slice() {
        return Symbol::BoundName;
    }
    if word == b"<reserved>".as_slice() {
        return Symbol::Reserved;
    }
    Symbol::Part(word)
}

// Whether a word is no token: a small letter stands after its `<`.
fn is_in_brackets(word: &[u8]) -> bool {
    match word {
        [b'<', first, ..] => first.is_ascii_lowercase(),
        _ => false,
    }
}

/// What a part is, in words.
pub fn part_words(part: &[u8]) -> &'static [u8] {
    let mut rest = words_text();
    for _ in 0..rest.len() {
        let Some((line, behind)) = first_line(rest) else {
            return b"a part";
        };
        let (name, words) = first_word(line);
        if name == part {
            return words;
        }
        rest = behind;
    }
    b"a part"
}
