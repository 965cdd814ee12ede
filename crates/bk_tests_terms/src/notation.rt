// The signs and words of the notation.

use crate::operator_table::{LEVELS, Level};
use bk_ops::{NO_OPERATOR, OpRow, find, sign, signs, word, words};
use std::ops::Range;
use std::process::Abort;

const SIGNS: &str =
    "& => <=> ! # = /= < <= > >= : /: <: /<: <<: \\/ /\\ - * |-> .. { } ( ) [ ] <-> +-> --> \
    >+> >-> +->> -->> >->> ~ <| |> <<| |>> <+ ; , . | || % + / ** := :: <-- ^ -> <-";

const WORDS: &str = "MACHINE REFINEMENT IMPLEMENTATION REFINES SETS CONSTANTS CONCRETE_CONSTANTS \
    PROPERTIES VARIABLES ABSTRACT_VARIABLES CONCRETE_VARIABLES INVARIANT ASSERTIONS VALUES \
    INITIALISATION OPERATIONS END BEGIN PRE THEN IF ELSIF ELSE SELECT WHEN CHOICE OR ANY WHERE LET \
    BE IN VAR WHILE DO VARIANT ASSERT skip \
    or not mod card min max dom ran id succ pred bool BOOL TRUE FALSE INTEGER NATURAL NATURAL1 INT \
    NAT NAT1 MAXINT MININT POW POW1 FIN FIN1 btrue bfalse \
    ABSTRACT_CONSTANTS SEES USES INCLUDES EXTENDS PROMOTES IMPORTS DEFINITIONS LOCAL_OPERATIONS \
    CONSTRAINTS CASE OF EITHER seq size first last front tail rev UNION INTER SIGMA PI union inter \
    iterate closure";

// The first text that has not its number in these rows, or has one in the others.
fn first_lost<'a, const N: usize, const M: usize>(
    texts: &'a str,
    numbers: Range<u16>,
    rows: &[OpRow; N],
    others: &[OpRow; M],
) -> Option<&'a str> {
    for (op, text) in numbers.zip(texts.split_ascii_whitespace()) {
        if find(rows, text.as_bytes()) != Some(op) || find(others, text.as_bytes()).is_some() {
            return Some(text);
        }
    }
    None
}

#[test]
fn each_sign_is_found_under_its_text(rt: HostRuntime) {
    assert!(rt; SIGNS.split_ascii_whitespace().count() == 57);
    assert_eq!(rt; first_lost(SIGNS, 0..57, &signs(), &words()), None);
}

#[test]
fn each_word_is_found_under_its_text(rt: HostRuntime) {
    assert!(rt; WORDS.split_ascii_whitespace().count() == 95);
    assert_eq!(rt; first_lost(WORDS, 57..152, &words(), &signs()), None);
}

const OTHERS: [&[u8]; 7] = [b"BOOLX", b"BOO", b"BOOL ", b"machine", b"", b"<---", b" "];

fn refuse(rt: &impl Abort, texts: &[&[u8]]) {
    for text in texts {
        assert!(rt; find(&words(), text).is_none() && find(&signs(), text).is_none());
    }
}

#[test]
fn other_texts_are_not_found(rt: HostRuntime) {
    refuse(&rt, &OTHERS);
}

// Texts of signs, and the names of their numbers.
const NAMED_SIGNS: [(&str, u16); 7] = [
    ("|->", sign::MAPLET),
    ("|", sign::BAR),
    ("<--", sign::OUTPUTS),
    ("^", sign::CONCATENATION),
    ("->", sign::PREPEND),
    ("<-", sign::APPEND),
    ("/", sign::DIVIDE),
];

const NAMED_WORDS: [(&str, u16); 9] = [
    ("OR", word::OR_BRANCH),
    ("or", word::OR),
    ("bool", word::BOOL_OF),
    ("BOOL", word::BOOL),
    ("skip", word::SKIP),
    ("bfalse", word::BFALSE),
    ("IMPORTS", word::IMPORTS),
    ("seq", word::SEQ),
    ("rev", word::REV),
];

fn compare<const N: usize>(rt: &impl Abort, table: &[OpRow; N], rows: &[(&str, u16)]) {
    for (text, op) in rows {
        assert!(rt; find(table, text.as_bytes()) == Some(*op), "{text}");
    }
}

#[test]
fn names_of_signs_fit(rt: HostRuntime) {
    compare(&rt, &signs(), &NAMED_SIGNS);
}

#[test]
fn names_of_words_fit(rt: HostRuntime) {
    compare(&rt, &words(), &NAMED_WORDS);
}

// The level of an operator between terms, or that of no operator.
fn listed_level(levels: &[Level], text: &[u8]) -> u8 {
    for (level, _, _, operators) in levels {
        for (listed, _) in *operators {
            if listed.as_bytes() == text {
                return *level;
            }
        }
    }
    NO_OPERATOR
}

fn compare_levels(rt: &impl Abort, rows: &[OpRow]) {
    for row in rows {
        assert!(rt;
            row.level == listed_level(&LEVELS, row.text()),
            "number {}",
            row.op
        );
    }
}

#[test]
fn operators_have_their_levels(rt: HostRuntime) {
    compare_levels(&rt, &signs());
    compare_levels(&rt, &words());
}
