// Predicates drawn from a seed, as the texts that tests write formulas in.

use crate::draws::Draws;
use bk_io::Memory;

// What a text stands for.
#[derive(Clone, Copy)]
pub(crate) enum Kind {
    Number,
    // A set of numbers.
    Set,
    // A relation between numbers.
    Relation,
    Predicate,
}

// A part of a text in parentheses.
#[derive(Clone, Copy)]
enum Piece {
    Word(&'static str),
    // One of these words.
    One(&'static [&'static str]),
    Term(Kind),
    // A term under one more bound number.
    Under(Kind),
}

type Pieces = &'static [Piece];

// ---- numbers
const CALCULATED: Pieces = &[
    Piece::Term(Kind::Number),
    Piece::One(&["+", "-", "*", "/", "mod", "**"]),
    Piece::Term(Kind::Number),
];

const NUMBERS: [Pieces; 6] = [
    &[Piece::Word("neg"), Piece::Term(Kind::Number)],
    &[Piece::One(&["card", "min", "max"]), Piece::Term(Kind::Set)],
    &[
        Piece::Term(Kind::Relation),
        Piece::Word("of"),
        Piece::Term(Kind::Number),
    ],
    CALCULATED,
    CALCULATED,
    CALCULATED,
];

// ---- sets
const SETS: [Pieces; 6] = [
    &[Piece::Word("single"), Piece::Term(Kind::Number)],
    &[
        Piece::Term(Kind::Number),
        Piece::Word(".."),
        Piece::Term(Kind::Number),
    ],
    &[
        Piece::Word("set1"),
        Piece::Term(Kind::Set),
        Piece::Under(Kind::Predicate),
    ],
    &[
        Piece::Term(Kind::Relation),
        Piece::Word("image"),
        Piece::Term(Kind::Set),
    ],
    &[Piece::One(&["dom", "ran"]), Piece::Term(Kind::Relation)],
    &[
        Piece::Term(Kind::Set),
        Piece::One(&["\\/", "/\\", "minus"]),
        Piece::Term(Kind::Set),
    ],
];

// ---- relations
const JOINED_RELATIONS: Pieces = &[
    Piece::Term(Kind::Relation),
    Piece::One(&["\\/", "minus", "<+", ";"]),
    Piece::Term(Kind::Relation),
];

const RELATIONS: [Pieces; 6] = [
    &[Piece::Word("~"), Piece::Term(Kind::Relation)],
    &[
        Piece::Term(Kind::Set),
        Piece::Word("times"),
        Piece::Term(Kind::Set),
    ],
    &[
        Piece::Term(Kind::Set),
        Piece::One(&["<|", "<<|"]),
        Piece::Term(Kind::Relation),
    ],
    &[
        Piece::Word("fun1"),
        Piece::Term(Kind::Set),
        Piece::Under(Kind::Predicate),
        Piece::Under(Kind::Number),
    ],
    JOINED_RELATIONS,
    JOINED_RELATIONS,
];

// ---- predicates
const CONNECTED: Pieces = &[
    Piece::Term(Kind::Predicate),
    Piece::One(&["&", "or", "=>", "<=>"]),
    Piece::Term(Kind::Predicate),
];

const PREDICATES: [Pieces; 6] = [
    &[Piece::Word("not"), Piece::Term(Kind::Predicate)],
    &[Piece::One(&["!i", "#i"]), Piece::Under(Kind::Predicate)],
    &[
        Piece::Term(Kind::Number),
        Piece::One(&["=", "<", "<="]),
        Piece::Term(Kind::Number),
    ],
    &[
        Piece::Term(Kind::Number),
        Piece::Word(":"),
        Piece::Term(Kind::Set),
    ],
    CONNECTED,
    CONNECTED,
];

// ---- texts

// The parts of the text of this number.
fn chosen(kind: Kind, choice: u64) -> Pieces {
    let texts = match kind {
        Kind::Number => &NUMBERS,
        Kind::Set => &SETS,
        Kind::Relation => &RELATIONS,
        Kind::Predicate => &PREDICATES,
    };
    texts.get(choice as usize).copied().unwrap_or(&[])
}

fn write_word(out: &mut Vec<u8>, word: &str) -> Result<(), Memory> {
    out.extend_from_slice(word.as_bytes())?;
    Ok(out.extend_from_slice(b" ")?)
}

// One of the words.
fn write_one(out: &mut Vec<u8>, draws: &mut Draws, words: &[&str]) -> Result<(), Memory> {
    if words.is_empty() {
        return Ok(());
    }
    let at = draws.below(words.len() as u64) as usize;
    match words.get(at) {
        Some(word) => write_word(out, word),
        None => Ok(()),
    }
}

// The innermost bound numbers.
const BOUND: [&str; 4] = ["b0", "b1", "b2", "b3"];

// A number without operators, under so many bound numbers.
fn write_leaf(out: &mut Vec<u8>, draws: &mut Draws, bound: u64) -> Result<(), Memory> {
    let known = bound.min(4);
    if known > 0 && draws.below(2) == 0 {
        let at = draws.below(known) as usize;
        return match BOUND.get(at) {
            Some(word) => write_word(out, word),
            None => Ok(()),
        };
    }
    write_one(out, draws, &["n", "k", "v", "-5", "0", "7"])
}

// A text without parts.
fn write_least(out: &mut Vec<u8>, draws: &mut Draws, kind: Kind, bound: u64) -> Result<(), Memory> {
    match kind {
        Kind::Number => write_leaf(out, draws, bound),
        Kind::Set => write_one(out, draws, &["s", "{}Pi"]),
        Kind::Relation => write_one(out, draws, &["r", "f", "{}PXii"]),
        Kind::Predicate => write_one(out, draws, &["btrue", "bfalse"]),
    }
}

/// A text with at most so many operators on one way down, under so many bound numbers.
pub(crate) fn write(
    out: &mut Vec<u8>,
    draws: &mut Draws,
    kind: Kind,
    bound: u64,
    depth: u64,
) -> Result<(), Memory> {
    if depth == 0 {
        return write_least(out, draws, kind, bound);
    }
    write_word(out, "(")?;
    for piece in chosen(kind, draws.below(6)) {
        match *piece {
            Piece::Word(word) => write_word(out, word)?,
            Piece::One(words) => write_one(out, draws, words)?,
            Piece::Term(part) => write(out, draws, part, bound, depth - 1)?,
            Piece::Under(part) => write(out, draws, part, bound.saturating_add(1), depth - 1)?,
        }
    }
    write_word(out, ")")
}
