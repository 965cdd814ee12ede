// Long components: as many tokens as a file may have, and as many names as a component may declare.

use crate::answer::{Answer, answer_to, said_of};
use bk_lex::tokens;
use std::alloc::{AllocError, Global};

// A machine: a text, so many times another one, and a third.
fn long(
    alloc: Global,
    front: &str,
    piece: &str,
    count: usize,
    back: &str,
) -> Result<String, AllocError> {
    let pieces = piece.repeat(alloc, count)?;
    format!(in alloc; "MACHINE M {front}{pieces}{back}")
}

// Whether the text has a million tokens, and this is said of it.
fn says(alloc: Global, text: &[u8], wanted: Answer) -> bool {
    match tokens(alloc, text) {
        Ok(found) => { found.len() == 1000000 && answer_to(alloc, &found, text.len()) == wanted }
        Err(_) => false,
    }
}

fn long_says(
    alloc: Global,
    front: &str,
    piece: &str,
    count: usize,
    back: &str,
    wanted: Answer,
) -> bool {
    match long(alloc, front, piece, count, back) {
        Ok(text) => says(alloc, text.as_bytes(), wanted),
        Err(_) => false,
    }
}

#[test]
fn a_million_tokens_of_operations(rt: HostRuntime) {
    let (piece, back) = ("o = x := 1;", "o(i) = skip END");
    assert!(rt; long_says(rt.alloc(), "OPERATIONS ", piece, 166665, back, Answer::Read));
}

#[test]
fn a_million_tokens_of_assertions(rt: HostRuntime) {
    let (piece, back) = ("x < 9;", "-x < 9 END");
    assert!(rt; long_says(rt.alloc(), "ASSERTIONS ", piece, 249998, back, Answer::Read));
}

#[test]
fn a_million_tokens_of_conjuncts(rt: HostRuntime) {
    let (piece, back) = ("x < 9 & ", "-x < 9 END");
    assert!(rt; long_says(rt.alloc(), "INVARIANT ", piece, 249998, back, Answer::High));
}

#[test]
fn a_million_tokens_of_powers(rt: HostRuntime) {
    let (piece, back) = ("x ** ", "x(y) END");
    assert!(rt; long_says(rt.alloc(), "INVARIANT ", piece, 499996, back, Answer::High));
}

#[test]
fn a_million_tokens_of_conjuncts_and_choices(rt: HostRuntime) {
    let (piece, back) = ("x & y or ", "x(y) END");
    assert!(rt; long_says(rt.alloc(), "INVARIANT ", piece, 249998, back, Answer::High));
}

#[test]
fn a_million_tokens_of_a_sequence(rt: HostRuntime) {
    let (piece, back) = ("x := 1;", "x := -1 END");
    assert!(rt;
        long_says(
            rt.alloc(),
            "INITIALISATION ",
            piece,
            249998,
            back,
            Answer::High
        )
    );
}

#[test]
fn a_million_tokens_of_a_definition(rt: HostRuntime) {
    let (front, back) = ("INITIALISATION LET x BE x = ", "y(y) IN skip END END");
    assert!(rt; long_says(rt.alloc(), front, "y + ", 499992, back, Answer::High));
}

// Where a name stands free in what it is to be, however late, LET does not define it: nothing is read there.
#[test]
fn a_million_tokens_of_no_definition(rt: HostRuntime) {
    let (front, back) = ("INITIALISATION LET x BE x = ", "y(x) IN skip END END");
    assert!(rt; long_says(rt.alloc(), front, "y + ", 499992, back, Answer::Stops(10)));
}

// Names with numbers, so many of them, and what follows each.
fn numbered(alloc: Global, name: &str, count: usize, back: &str) -> Result<String, AllocError> {
    let mut text = String::new(alloc);
    for number in 0..count {
        let next = format!(in alloc; "{name}{number}{back}")?;
        text.push_str(&next)?;
    }
    Ok(text)
}

fn with_names(alloc: Global, names: &str, operations: &str) -> Result<String, AllocError> {
    format!(in alloc;
        "MACHINE M VARIABLES {names}x INITIALISATION {names}x :(x = 0) OPERATIONS {operations}o = skip END"
    )
}

fn names_say(alloc: Global, names: &str, operations: &str, wanted: Answer) -> bool {
    match with_names(alloc, names, operations) {
        Ok(text) => said_of(alloc, text.as_bytes()) == wanted,
        Err(_) => false,
    }
}

fn many_say(alloc: Global, names: &str, count: usize, wanted: Answer) -> bool {
    let body = " = PRE x : 0..9 THEN ANY u WHERE u : 0..x THEN x := u END END ; ";
    match numbered(alloc, "o", count, body) {
        Ok(operations) => names_say(alloc, names, &operations, wanted),
        Err(_) => false,
    }
}

fn names_are_read(alloc: Global, count: usize, operations: usize) -> bool {
    match numbered(alloc, "n", count, ", ") {
        Ok(names) => many_say(alloc, &names, operations, Answer::Read),
        Err(_) => false,
    }
}

#[test]
fn two_thousand_names_and_a_hundred_operations(rt: HostRuntime) {
    assert!(rt; names_are_read(rt.alloc(), 1899, 99));
}
