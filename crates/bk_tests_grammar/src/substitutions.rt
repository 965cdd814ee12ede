// Texts and the substitutions that are read from them.

use bk_lex::tokens;
use bk_p_expr::SynFault;
use bk_p_sub::substitution;
use bk_raw::{RawSub, RawSubNode};
use std::alloc::Global;
use std::process::Abort;

// The place of the token after the substitution that the text begins with.
fn end(alloc: Global, text: &str) -> Result<usize, SynFault> {
    match tokens(alloc, text.as_bytes()) {
        Ok(found) => {
            let read = Box::new(alloc, substitution(alloc, &found, 0)?)?;
            Ok(read.1)
        }
        Err(_) => Err(SynFault::Memory),
    }
}

fn ends_at(alloc: Global, text: &str, wanted: usize) -> bool {
    match end(alloc, text) {
        Ok(next) => next == wanted,
        Err(_) => false,
    }
}

fn fails(alloc: Global, text: &str, wanted: SynFault) -> bool {
    match end(alloc, text) {
        Ok(_) => false,
        Err(fault) => fault == wanted,
    }
}

// A text, and the place of the token after the substitution that it begins with.
const ENDS: [(&str, usize); 19] = [
    ("skip END", 1),
    ("x := 1 || y := 2 ; z := 3", 11),
    ("x, y := 1, 2 ;", 7),
    ("x, y := 1", 5),
    ("f(a) := b + 1 OPERATIONS", 8),
    ("x :: NAT || skip", 5),
    ("x, y :(x < y) THEN", 9),
    (
        "IF p = 1 THEN skip ELSIF p = 2 THEN skip ELSE x := 1 END ; ",
        17,
    ),
    ("CHOICE skip OR x := 1 END", 7),
    ("ANY x, y WHERE x < y THEN z := x END", 13),
    ("LET x BE x = 1 IN y := x END", 11),
    (
        "WHILE n < 3 DO n := n + 1 INVARIANT n : NAT VARIANT 3 - n END",
        19,
    ),
    ("op(a) := 1", 6),
    ("r := op", 3),
    ("op ; r <-- op(a) || skip", 10),
    ("BEGIN op END", 3),
    ("CHOICE op OR op(a) END", 8),
    ("IF p = 1 THEN op ELSE r <-- op END", 11),
    ("VAR x IN x <-- get ; y := x END", 11),
];

// Texts that no substitution is read from.
const UNWRITTEN: [&str; 10] = [
    "",
    "IF p = 1 THEN skip",
    "BEGIN skip ; END",
    "LET x BE x = x IN skip END",
    "LET x BE y = 1 IN skip END",
    "VAR x skip END",
    "VAR x op END",
    "<-- op",
    "(op)",
    "OPERATIONS",
];

fn compare_ends(rt: &impl Abort, alloc: Global, rows: &[(&str, usize)]) {
    for (text, wanted) in rows {
        assert!(rt; ends_at(alloc, text, *wanted), "{text}");
    }
}

fn refuse(rt: &impl Abort, alloc: Global, texts: &[&str]) {
    for text in texts {
        assert!(rt; fails(alloc, text, SynFault::At(0)), "{text}");
    }
}

#[test]
fn the_longest_is_read(rt: HostRuntime) {
    compare_ends(&rt, rt.alloc(), &ENDS);
}

#[test]
fn nothing_is_written(rt: HostRuntime) {
    refuse(&rt, rt.alloc(), &UNWRITTEN);
}

// ---- calls

// How many outputs and arguments a call has, and the place of the token after it.
type Call = (usize, usize, usize);

fn call_of(sub: &RawSub, end: usize) -> Option<Call> {
    match &sub.node {
        RawSubNode::Call(outputs, _, arguments) => Some((outputs.len(), arguments.len(), end)),
        _ => None,
    }
}

// The call that the text begins with.
fn call(alloc: Global, text: &str) -> Result<Option<Call>, SynFault> {
    match tokens(alloc, text.as_bytes()) {
        Ok(found) => {
            let read = Box::new(alloc, substitution(alloc, &found, 0)?)?;
            Ok(call_of(&read.0, read.1))
        }
        Err(_) => Err(SynFault::Memory),
    }
}

fn is_call(alloc: Global, text: &str, wanted: Call) -> bool {
    match call(alloc, text) {
        Ok(Some(found)) => found == wanted,
        _ => false,
    }
}

const CALLS: [(&str, Call); 6] = [
    ("op", (0, 0, 1)),
    ("op(a)", (0, 1, 4)),
    ("op(a, b + 1)", (0, 2, 8)),
    ("r <-- op", (1, 0, 3)),
    ("r, s <-- op(a)", (2, 1, 8)),
    ("r <-- op(a, (b, c)) END", (1, 2, 12)),
];

// Of these a call is only the front. Arguments that are none are not written.
const FRONTS: [(&str, Call); 18] = [
    ("op(", (0, 0, 1)),
    ("op()", (0, 0, 1)),
    ("op(a", (0, 0, 1)),
    ("op(a,", (0, 0, 1)),
    ("op(a,)", (0, 0, 1)),
    ("op(a ; b)", (0, 0, 1)),
    ("op skip", (0, 0, 1)),
    ("r, s", (0, 0, 1)),
    ("r <--", (0, 0, 1)),
    ("r, s <--", (0, 0, 1)),
    ("r <-- skip", (0, 0, 1)),
    ("r <-- op(", (1, 0, 3)),
    ("r <-- op()", (1, 0, 3)),
    ("r <-- op(a) := 1", (1, 1, 6)),
    ("x, := 1", (0, 0, 1)),
    ("x + 1", (0, 0, 1)),
    ("f(a) := )", (0, 1, 4)),
    ("x :: END", (0, 0, 1)),
];

fn compare_calls(rt: &impl Abort, alloc: Global, rows: &[(&str, Call)]) {
    for (text, wanted) in rows {
        assert!(rt; is_call(alloc, text, *wanted), "{text}");
    }
}

#[test]
fn calls_are_read(rt: HostRuntime) {
    compare_calls(&rt, rt.alloc(), &CALLS);
}

#[test]
fn calls_stand_in_front(rt: HostRuntime) {
    compare_calls(&rt, rt.alloc(), &FRONTS);
}
