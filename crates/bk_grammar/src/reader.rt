//! A recogniser over the rows of a grammar (Earley, An Efficient Context-Free Parsing Algorithm): the tokens read so far are the front of
//! some text of the grammar exactly as long as some row is left that waits.

use crate::rows::{Row, Symbol, rows};
use bk_form::{Token, TokenKind};
use bk_io::Memory;
use std::alloc::Global;

/// At most so many rows wait between two tokens; a text where more would is not read.
const MOST_WAITING: usize = 20000;

/// At most so many tokens are read: each keeps its waiting rows.
const MOST_READ: usize = 20000;

/// How far the tokens of a text are the front of one that a part is written as.
#[derive(Drop)]
pub enum Reading {
    /// They are all of such a text.
    Whole,
    /// Some reading reaches a token, and none goes past it.
    Stops(Furthest),
    /// There are too many to read.
    TooLong,
}

/// The furthest token that any reading reaches, and what could stand there.
#[derive(Drop)]
pub struct Furthest {
    /// Its number, from 0; the number of all tokens where the text ends too early.
    pub token: usize,
    /// Tokens and parts, each once.
    pub wanted: Vec<Symbol>,
}

/// A row that is read up to a place, from a token on.
#[derive(Clone, Copy)]
struct Waiting {
    row: usize,
    read: usize,
    from: usize,
}

impl Waiting {
    // What it waits for; None where all of it is read.
    fn next(&self, rows: &[Row]) -> Option<Symbol> {
        let row = rows.get(self.row)?;
        row.symbols.get(self.read).copied()
    }

    // The part that it is a row of.
    fn part(&self, rows: &[Row]) -> &'static [u8] {
        match rows.get(self.row) {
            Some(row) => row.part,
            None => b"",
        }
    }

    fn advanced(&self) -> Waiting {
        Waiting {
            row: self.row,
            read: self.read.saturating_add(1),
            from: self.from,
        }
    }

    fn equal(&self, other: &Waiting) -> bool {
        self.row == other.row && self.read == other.read && self.from == other.from
    }
}

/// How far the tokens of a text are the front of one that the part is written as, and what could stand there.
pub fn furthest_reading(
    alloc: Global,
    text: &[u8],
    tokens: &[Token],
    start: &str,
) -> Result<Reading, Memory> {
    if tokens.len() > MOST_READ {
        return Ok(Reading::TooLong);
    }
    let rows = rows(alloc, start)?;
    let mut sets: Vec<Vec<Waiting>> = Vec::new(alloc);
    sets.push(first_set(alloc, &rows, start.as_bytes())?)?;
    for (index, token) in tokens.iter().enumerate() {
        let next = behind(alloc, &rows, text, token, &sets, index)?;
        if next.is_empty() {
            return Ok(Reading::Stops(reached(alloc, &rows, &sets, index)?));
        }
        sets.push(next)?;
    }
    if is_read(&rows, &sets, start.as_bytes()) {
        return Ok(Reading::Whole);
    }
    let furthest = reached(alloc, &rows, &sets, tokens.len())?;
    Ok(Reading::Stops(furthest))
}

// The rows that wait before the first token.
fn first_set(alloc: Global, rows: &[Row], start: &[u8]) -> Result<Vec<Waiting>, Memory> {
    let mut first = Vec::new(alloc);
    predict(&mut first, rows, start, 0)?;
    close(&mut first, rows, &[], 0)?;
    Ok(first)
}

// The rows that wait after a token.
fn behind(
    alloc: Global,
    rows: &[Row],
    text: &[u8],
    token: &Token,
    sets: &[Vec<Waiting>],
    index: usize,
) -> Result<Vec<Waiting>, Memory> {
    let mut next = Vec::new(alloc);
    let Some(before) = sets.get(index) else {
        return Ok(next);
    };
    for waiting in before {
        if is_behind(rows, text, token, waiting) {
            next.push(waiting.advanced())?;
        }
    }
    if !next.is_empty() {
        close(&mut next, rows, sets, index.saturating_add(1))?;
    }
    Ok(next)
}

// Whether a row waits for a token.
fn is_behind(rows: &[Row], text: &[u8], token: &Token, waiting: &Waiting) -> bool {
    match waiting.next(rows) {
        Some(symbol) => is_written(text, token, symbol),
        None => false,
    }
}

// Whether a token is what is waited for.
fn is_written(text: &[u8], token: &Token, symbol: Symbol) -> bool {
    match symbol {
        Symbol::Text(written) => written == bytes_of(text, token),
        Symbol::Name => matches!(token.kind, TokenKind::Name(_)),
        Symbol::Number => matches!(token.kind, TokenKind::Number(_)),
        Symbol::LevelName => matches!(token.kind, TokenKind::LevelName(_, _)),
        Symbol::OldName => matches!(token.kind, TokenKind::LevelName(_, 0)),
        Symbol::BoundName => matches!(token.kind, TokenKind::BoundName(_)),
        Symbol::Reserved => matches!(token.kind, TokenKind::Word(_)),
        Symbol::Part(_) => false,
    }
}

fn bytes_of<'a>(text: &'a [u8], token: &Token) -> &'a [u8] {
    if token.start <= token.end && token.end <= text.len() {
        return &text[token.start..token.end];
    }
    &[]
}

// Adds the rows of a part, from a token on, that are not there.
fn predict(set: &mut Vec<Waiting>, rows: &[Row], part: &[u8], from: usize) -> Result<(), Memory> {
    for (row, entry) in rows.iter().enumerate() {
        if entry.part == part {
            add(set, Waiting { row, read: 0, from })?;
        }
    }
    Ok(())
}

fn add(set: &mut Vec<Waiting>, waiting: Waiting) -> Result<(), Memory> {
    if !has(set, &waiting) {
        set.push(waiting)?;
    }
    Ok(())
}

fn has(set: &[Waiting], wanted: &Waiting) -> bool {
    for waiting in set {
        if waiting.equal(wanted) {
            return true;
        }
    }
    false
}

// Adds what follows from rows that wait for parts, and from rows of which all is read, before the token with this number.
fn close(
    set: &mut Vec<Waiting>,
    rows: &[Row],
    sets: &[Vec<Waiting>],
    here: usize,
) -> Result<(), Memory> {
    for index in 0..MOST_WAITING {
        let Some(waiting) = set.get(index).copied() else {
            return Ok(());
        };
        match waiting.next(rows) {
            Some(Symbol::Part(part)) => predict(set, rows, part, here)?,
            Some(_) => {}
            None => complete(set, rows, sets, waiting)?,
        }
    }
    Ok(())
}

// All of a row is read: those that waited for its part go on.
fn complete(
    set: &mut Vec<Waiting>,
    rows: &[Row],
    sets: &[Vec<Waiting>],
    done: Waiting,
) -> Result<(), Memory> {
    let part = done.part(rows);
    let Some(before) = sets.get(done.from) else {
        return Ok(());
    };
    for waiting in before {
        if waits_for(rows, waiting, part) {
            add(set, waiting.advanced())?;
        }
    }
    Ok(())
}

fn waits_for(rows: &[Row], waiting: &Waiting, part: &[u8]) -> bool {
    match waiting.next(rows) {
        Some(symbol) => symbol.is_part(part),
        None => false,
    }
}

// Whether all tokens are what the part is written as.
fn is_read(rows: &[Row], sets: &[Vec<Waiting>], start: &[u8]) -> bool {
    let Some(last) = sets.last() else {
        return false;
    };
    for waiting in last {
        if waiting.from == 0 && waiting.next(rows).is_none() && waiting.part(rows) == start {
            return true;
        }
    }
    false
}

// What rows wait for of which something is read, before the token with this number.
fn reached(
    alloc: Global,
    rows: &[Row],
    sets: &[Vec<Waiting>],
    index: usize,
) -> Result<Furthest, Memory> {
    let mut wanted = Vec::new(alloc);
    if let Some(set) = sets.get(index) {
        for waiting in set {
            if waiting.read > 0 || index == 0 {
                add_wanted(&mut wanted, waiting.next(rows))?;
            }
        }
    }
    Ok(Furthest {
        token: index,
        wanted,
    })
}

fn add_wanted(wanted: &mut Vec<Symbol>, symbol: Option<Symbol>) -> Result<(), Memory> {
    let Some(symbol) = symbol else {
        return Ok(());
    };
    if !is_wanted(wanted, &symbol) {
        wanted.push(symbol)?;
    }
    Ok(())
}

fn is_wanted(wanted: &[Symbol], symbol: &Symbol) -> bool {
    for other in wanted {
        if other.equal(symbol) {
            return true;
        }
    }
    false
}
