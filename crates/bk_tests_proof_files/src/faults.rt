// Faults of proof files, each with its file and its byte.

use crate::texts::read;
use bk_p_proof::{ScriptFault, Scripts, scripts};
use std::alloc::Global;
use std::test::Fail;

// Whether the texts have this fault, in this file and at this byte.
pub(crate) fn is_fault(alloc: Global, texts: &[&str], wanted: (u8, u32, usize)) -> bool {
    match read(alloc, texts) {
        Err(
            ScriptFault::Fault {
                number,
                file,
                place,
            },
        ) => number == wanted.0 && file == wanted.1 && place == wanted.2,
        _ => false,
    }
}

// Texts of one file with the byte where nothing is written that goes on so.
const UNWRITTEN: &[(&str, usize)] = &[
    ("proof A.1 hyp end", 10),
    ("proof A.1 same ; end", 15),
    ("proof A.1 same", 14),
    ("end", 0),
    ("proof", 0),
    ("proof A. ; end", 7),
    ("proof A.1 same end end", 19),
    ("proof A.1 hyp 1 end proof B.1 hyp 1", 35),
    ("proof A.1 same same end", 15),
    ("proof A.1 lin 1, 2 1 * 1 end", 10),
    ("proof A.1 lin 1 : 1 * 1 + end", 24),
    ("proof A.1 lin 1 : 1 / 1 + 1 * 2 end", 24),
    ("proof A.1 lin 1 : 1 * 1 | end", 24),
    ("proof A.1 fix x : POW(INTEGER end", 10),
    ("proof A.1 fix x : INTEGER, y end", 25),
    ("proof A.1 use x, ; end", 15),
    ("proof A.1 eq 1 end", 10),
    ("proof A.1 law O5(1, 2 goal end", 10),
    ("proof A.1 law O5 goal 1 - end", 24),
    ("proof A.1 cut x & ; end", 16),
    ("proof A.1 nothing end", 10),
    ("proof A.1 cut end", 17),
    ("proof A.1 open 1 x : (INTEGER * ) end", 10),
    ("proof A.1 eval hyp end", 15),
    ("proof A.1 cut x ^ y end", 16),
    ("proof A.1 cut x -> y end", 16),
    ("proof A.1 cut seq(x) end", 10),
    ("proof A.1 cut x = first(y) end", 16),
    ("proof A.1 cut x ; same ^ end", 23),
    ("proof seq.^ end", 9),
];

#[test]
fn what_is_not_written_is_told_by_its_byte(rt: HostRuntime) {
    for (text, place) in UNWRITTEN {
        assert!(rt; is_fault(rt.alloc(), &[*text], (3, 0, *place)));
    }
}

// A name with two types in one script: the byte of the later one.
const TWO_TYPES: &[(&str, usize)] = &[
    ("proof A.1 fix x : INTEGER ; fix x : BOOL end", 32),
    (
        "proof A.1 open 1 x : POW(S) ; fix y : BOOL, x : POW(T) end",
        44,
    ),
    ("proof A.1 fix x : INTEGER, x : BOOL, x : BOOL end", 27),
    (
        "proof A.1 fix x : S end proof A.2 fix x : T ; fix x : (S * T) end",
        50,
    ),
];

#[test]
fn a_second_type_is_told_at_the_later_name(rt: HostRuntime) {
    for (text, place) in TWO_TYPES {
        assert!(rt; is_fault(rt.alloc(), &[*text], (3, 0, *place)));
    }
}

// Texts of several files with their first fault.
const FIRST: &[([&str; 2], (u8, u32, usize))] = &[
    // what is not written is asked of all files before names are
    (["proof A.1 end proof A.1 end", "proof"], (3, 1, 0)),
    // tokens are asked of all files before what is written is
    (["proof", "  ~~ ?"], (2, 1, 5)),
    // an open comment
    (["proof A.1 end", "proof /* A.1 end"], (2, 1, 6)),
    // a second name is told at the later script, also in another file
    (["proof A.1 end", "proof B.1 end proof A.1 end"], (6, 1, 20)),
    (["proof A.1 end proof A.1 end", "proof A.1 end"], (6, 0, 20)),
    // numbers are compared by their values
    (["proof A.1 end", "proof A.01 end"], (6, 1, 6)),
    // a number that is too large
    (
        [
            "proof A.170141183460469231731687303715884105727 end",
            "proof A.170141183460469231731687303715884105728 end",
        ],
        (2, 1, 8),
    ),
    // a number with more digits, and a letter that is no number
    (
        [
            "proof A.1 end proof A.I end",
            "proof A.00000000000000000000000000000000000000000001 end",
        ],
        (6, 1, 6),
    ),
];

#[test]
fn the_first_fault_is_told(rt: HostRuntime) {
    for (texts, fault) in FIRST {
        assert!(rt; is_fault(rt.alloc(), texts, *fault));
    }
}

// A file with a character that begins nothing, and one whose last byte is no UTF-8.
fn bad_bytes(alloc: Global) -> Result<Scripts, ScriptFault> {
    let mut files = Vec::new(alloc);
    files.push(Vec::from_slice(alloc, b"?")?)?;
    files.push(Vec::from_slice(alloc, b"proof A.1 \xff")?)?;
    scripts(alloc, &files)
}

#[test]
fn bytes_that_are_no_utf8_come_first(rt: HostRuntime) {
    let is_right = match bad_bytes(rt.alloc()) {
        Err(
            ScriptFault::Fault {
                number,
                file,
                place,
            },
        ) => number == 1 && file == 1 && place == 10,
        _ => false,
    };
    assert!(rt; is_right);
}
