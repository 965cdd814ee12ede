// The tokens that operators are, and how tightly they bind.

use crate::operator_table::{CONSTANTS, LEVELS, Level, WORD_OPERATORS};
use bk_form::TokenKind;
use bk_ops::{find, sign, signs, word, words};
use bk_raw::{Constant, InfixOp, Strengths, WordOp};
use std::process::Abort;

// The token that a text of the notation is, and a number where it is none.
fn token(text: &str) -> TokenKind {
    if let Some(op) = find(&signs(), text.as_bytes()) {
        return TokenKind::Sign(op);
    }
    match find(&words(), text.as_bytes()) {
        Some(op) => TokenKind::Word(op),
        None => TokenKind::Number(0),
    }
}

fn compare_operators(rt: &impl Abort, strengths: Strengths, operators: &[(&str, InfixOp)]) {
    for (text, op) in operators {
        assert!(rt; InfixOp::of(&token(text)) == Some(*op), "{text}");
        assert!(rt; op.strengths() == strengths, "{text}");
    }
}

fn compare_levels(rt: &impl Abort, levels: &[Level]) {
    for (own, left, right, operators) in levels {
        let strengths = Strengths {
            own: *own,
            left: *left,
            right: *right,
        };
        compare_operators(rt, strengths, operators);
    }
}

#[test]
fn operators_between_terms_are_found(rt: HostRuntime) {
    compare_levels(&rt, &LEVELS);
}

fn compare_words(rt: &impl Abort, words: &[(&str, WordOp)]) {
    for (text, op) in words {
        assert!(rt; WordOp::of(&token(text)) == Some(*op), "{text}");
    }
}

fn compare_constants(rt: &impl Abort, words: &[(&str, Constant)]) {
    for (text, constant) in words {
        assert!(rt; Constant::of(&token(text)) == Some(*constant), "{text}");
    }
}

#[test]
fn words_are_found(rt: HostRuntime) {
    compare_words(&rt, &WORD_OPERATORS);
    compare_constants(&rt, &CONSTANTS);
}

// Whether it is an operator between terms, one before a term, and a constant.
fn roles(kind: &TokenKind) -> [bool; 3] {
    [
        InfixOp::of(kind).is_some(),
        WordOp::of(kind).is_some(),
        Constant::of(kind).is_some(),
    ]
}

// Signs and words that are no operators of terms.
const OTHER_SIGNS: [u16; 6] = [
    sign::COMMA,
    sign::BAR,
    sign::SEMICOLON,
    sign::INVERSE,
    sign::LAMBDA,
    word::OR,
];

const OTHER_WORDS: [u16; 3] = [sign::AND, word::OR_BRANCH, word::SKIP];

fn refuse_signs(rt: &impl Abort, signs: &[u16]) {
    for op in signs {
        assert!(rt; roles(&TokenKind::Sign(*op)) == [false, false, false]);
    }
}

fn refuse_words(rt: &impl Abort, words: &[u16]) {
    for op in words {
        assert!(rt; roles(&TokenKind::Word(*op)) == [false, false, false]);
    }
}

#[test]
fn no_other_token_is_an_operator(rt: HostRuntime) {
    refuse_signs(&rt, &OTHER_SIGNS);
    refuse_words(&rt, &OTHER_WORDS);
    assert!(rt; roles(&TokenKind::Number(1)) == [false, false, false]);
    assert!(rt; roles(&TokenKind::BoundName(1)) == [false, false, false]);
}

const ROLES: [(&str, [bool; 3]); 8] = [
    ("mod", [true, false, false]),
    ("dom", [false, true, false]),
    ("TRUE", [false, false, true]),
    ("^", [true, false, false]),
    ("->", [true, false, false]),
    ("first", [false, true, false]),
    ("UNION", [false, false, false]),
    ("IMPORTS", [false, false, false]),
];

fn compare_roles(rt: &impl Abort, rows: &[(&str, [bool; 3])]) {
    for (text, wanted) in rows {
        assert!(rt; roles(&token(text)) == *wanted, "{text}");
    }
}

#[test]
fn each_word_has_one_role(rt: HostRuntime) {
    compare_roles(&rt, &ROLES);
}
