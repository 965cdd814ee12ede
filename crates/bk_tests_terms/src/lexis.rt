// Texts and their tokens.

use bk_form::{Token, TokenKind};
use bk_lex::{LexFault, tokens};
use bk_ops::{OpRow, sign, signs, word, words};
use std::alloc::{AllocError, Global};
use std::process::Abort;
use std::test::Fail;

// What a test wants of a token.
#[derive(Clone, Copy)]
enum Wanted {
    Name(&'static str),
    LevelName(&'static str, u32),
    BoundName(u32),
    Number(i128),
    Sign(u16),
    Word(u16),
}

fn is_kind(kind: &TokenKind, wanted: Wanted) -> bool {
    match (kind, wanted) {
        (TokenKind::Name(name), Wanted::Name(text)) => name.as_bytes() == text.as_bytes(),
        (TokenKind::LevelName(name, level), Wanted::LevelName(text, number)) => {
            name.as_bytes() == text.as_bytes() && *level == number
        }
        (TokenKind::BoundName(number), Wanted::BoundName(other)) => *number == other,
        (TokenKind::Number(value), Wanted::Number(other)) => *value == other,
        (TokenKind::Sign(op), Wanted::Sign(other)) => *op == other,
        (TokenKind::Word(op), Wanted::Word(other)) => *op == other,
        _ => false,
    }
}

fn is_wanted(token: &Token, wanted: (Wanted, usize, usize)) -> bool {
    let (kind, start, end) = wanted;
    is_kind(&token.kind, kind) && token.start == start && token.end == end
}

// Whether the text has these tokens at these places.
fn has(alloc: Global, text: &str, wanted: &[(Wanted, usize, usize)]) -> bool {
    match tokens(alloc, text.as_bytes()) {
        Ok(found) => {
            found.len() == wanted.len() && found.iter().zip(wanted).all(|(t, w)| is_wanted(t, *w))
        }
        Err(_) => false,
    }
}

// Whether this is the text's fault.
fn fails(alloc: Global, text: &[u8], wanted: LexFault) -> bool {
    match tokens(alloc, text) {
        Ok(_) => false,
        Err(fault) => fault == wanted,
    }
}

// ---- texts that have tokens

const A: Wanted = Wanted::Name("a");

const B: Wanted = Wanted::Name("b");

const GREATEST: Wanted = Wanted::Number(170141183460469231731687303715884105727);

// A text, and its tokens with their places.
type Row = (&'static str, &'static [(Wanted, usize, usize)]);

const SIGNS_BLANKS_AND_COMMENTS: [Row; 8] = [
    (
        "a<--b //x",
        &[(A, 0, 1), (Wanted::Sign(sign::OUTPUTS), 1, 4), (B, 4, 5)],
    ),
    (
        "a<-b",
        &[(A, 0, 1), (Wanted::Sign(sign::APPEND), 1, 3), (B, 3, 4)],
    ),
    ("", &[]),
    (" \t\r\n/* a **/ // b", &[]),
    ("// b\na", &[(A, 5, 6)]),
    ("// b\ra\n", &[]),
    (
        "a/ /* / */a",
        &[(A, 0, 1), (Wanted::Sign(sign::DIVIDE), 1, 2), (A, 10, 11)],
    ),
    ("/**/a/**/", &[(A, 4, 5)]),
];

const NAMES_AND_NUMBERS: [Row; 8] = [
    ("or$0", &[(Wanted::LevelName("or", 0), 0, 4)]),
    ("or", &[(Wanted::Word(word::OR), 0, 2)]),
    ("orx", &[(Wanted::Name("orx"), 0, 3)]),
    ("$12", &[(Wanted::BoundName(12), 0, 3)]),
    (
        "n$4294967295",
        &[(Wanted::LevelName("n", 4294967295), 0, 12)],
    ),
    ("007a", &[(Wanted::Number(7), 0, 3), (A, 3, 4)]),
    (
        "170141183460469231731687303715884105727",
        &[(GREATEST, 0, 39)],
    ),
    (
        "é α_1 日本",
        &[
            (Wanted::Name("é"), 0, 2),
            (Wanted::Name("α_1"), 3, 7),
            (Wanted::Name("日本"), 8, 14),
        ],
    ),
];

fn compare(rt: &impl Abort, alloc: Global, rows: &[Row]) {
    for (text, wanted) in rows {
        assert!(rt; has(alloc, text, wanted), "{text}");
    }
}

#[test]
fn signs_blanks_and_comments(rt: HostRuntime) {
    compare(&rt, rt.alloc(), &SIGNS_BLANKS_AND_COMMENTS);
}

#[test]
fn names_and_numbers(rt: HostRuntime) {
    compare(&rt, rt.alloc(), &NAMES_AND_NUMBERS);
}

// ---- texts that have none

const FAULTS: [(&[u8], LexFault); 11] = [
    (b"/* x", LexFault::OpenComment(0)),
    (b"/*/", LexFault::OpenComment(0)),
    (b"a /* x */ /* *", LexFault::OpenComment(10)),
    (b"_a", LexFault::BadChar(0)),
    (b"a $", LexFault::BadChar(2)),
    (b"a ? /*", LexFault::BadChar(2)),
    (b"\xff", LexFault::NotUtf8(0)),
    (b"_ \xff", LexFault::NotUtf8(2)),
    (
        b"170141183460469231731687303715884105728",
        LexFault::NumberTooWide(0),
    ),
    (b"n$4294967296", LexFault::NumberTooWide(0)),
    (b"a $4294967296", LexFault::NumberTooWide(2)),
];

fn compare_faults(rt: &impl Abort, alloc: Global, rows: &[(&[u8], LexFault)]) {
    for (text, wanted) in rows {
        assert!(rt; fails(alloc, text, *wanted));
    }
}

#[test]
fn faults_have_their_places(rt: HostRuntime) {
    compare_faults(&rt, rt.alloc(), &FAULTS);
}

// ---- the tables

fn is_one(found: Result<Vec<Token>, LexFault>, wanted: Wanted, len: usize) -> bool {
    match found {
        Ok(tokens) => tokens.len() == 1 && is_wanted(&tokens[0], (wanted, 0, len)),
        Err(_) => false,
    }
}

fn compare_signs(rt: &impl Abort, alloc: Global, rows: &[OpRow]) {
    for row in rows {
        let found = tokens(alloc, row.text());
        assert!(rt; is_one(found, Wanted::Sign(row.op), row.len as usize));
    }
}

fn compare_words(rt: &impl Abort, alloc: Global, rows: &[OpRow]) {
    for row in rows {
        let found = tokens(alloc, row.text());
        assert!(rt; is_one(found, Wanted::Word(row.op), row.len as usize));
    }
}

#[test]
fn every_sign_and_word(rt: HostRuntime) {
    compare_signs(&rt, rt.alloc(), &signs());
    compare_words(&rt, rt.alloc(), &words());
}

// ---- the limit

// Whether so many commas are so many tokens.
fn are_tokens(alloc: Global, count: usize) -> Result<bool, AllocError> {
    let text = vec![in alloc; b','; count]?;
    match tokens(alloc, &text) {
        Ok(found) => Ok(found.len() == count),
        Err(_) => Ok(false),
    }
}

// Whether so many commas are more tokens than this limit.
fn are_too_many(alloc: Global, count: usize, limit: usize) -> Result<bool, AllocError> {
    let text = vec![in alloc; b','; count]?;
    Ok(fails(alloc, &text, LexFault::Limit(limit)))
}

#[test]
fn the_limit(rt: HostRuntime) -> Result<(), Fail> {
    assert!(rt; are_tokens(rt.alloc(), 1000000)?);
    assert!(rt; are_too_many(rt.alloc(), 1000001, 1000000)?);
    Ok(())
}
