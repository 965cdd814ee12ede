//! What no implementation can execute.

use crate::say::{clause_before, is_one_of, say, say_quoted, word_at};
use bk_form::Token;
use bk_io::Memory;

/// A declaration, a statement or a formula that is no B0.
pub(crate) fn say_executed(
    words: &mut Vec<u8>,
    text: &[u8],
    list: &[Token],
    index: usize,
) -> Result<(), Memory> {
    let token = word_at(text, list, index);
    say_quoted(words, token)?;
    let clause = clause_before(text, list, index);
    if is_one_of(
        clause,
        &["VARIABLES", "ABSTRACT_VARIABLES", "CONCRETE_VARIABLES"],
    ) {
        return say_variable(words);
    }
    if is_one_of(clause, &["OPERATIONS", "INITIALISATION"]) {
        return say_code(words, text, list, index);
    }
    say(
        words,
        " has a variable from above that is not a number, a truth value, an element of a set or an array of these: refine it by such variables\n",
    )
}

fn say_variable(words: &mut Vec<u8>) -> Result<(), Memory> {
    say(
        words,
        " cannot be stored: a variable of an implementation is a number, a truth value, an element of a set, or an array, f : D --> E with an interval, BOOL or a set for D\n",
    )
}

// What stands in the initialisation or an operation.
fn say_code(words: &mut Vec<u8>, text: &[u8], list: &[Token], index: usize) -> Result<(), Memory> {
    if is_in_header(text, list, index) {
        return say(
            words,
            " cannot be passed: inputs and outputs are numbers, truth values and elements of sets\n",
        );
    }
    if begins_statement(text, list, index) {
        return say(
            words,
            " begins a substitution that is not B0: allowed are skip, x := E for one variable, f(e) := E of an array and f := D * {E} that fills it, ;, BEGIN, VAR, IF, WHILE and ASSERT\n",
        );
    }
    say(
        words,
        " begins a formula that is not B0: allowed are numbers within INT, truth values, elements, + - * / mod succ pred, arrays at an index, bool(P), and as conditions comparisons with = /= < <= > >=, joined by & or not\n",
    )
}

// Whether a token is an input or an output of an operation: after it `<--` or `=` comes before any statement.
fn is_in_header(text: &[u8], list: &[Token], index: usize) -> bool {
    for place in index..list.len() {
        let word = word_at(text, list, place.saturating_add(1));
        if word == b"<--".as_slice() {
            return true;
        }
        if word == b")".as_slice() {
            return word_at(text, list, place.saturating_add(2)) == b"=".as_slice()
                && opens_header(text, list, index);
        }
        if word != b",".as_slice() && !is_behind_comma(text, list, place) {
            return false;
        }
    }
    false
}

fn is_behind_comma(text: &[u8], list: &[Token], place: usize) -> bool {
    word_at(text, list, place) == b",".as_slice()
}

// Whether the parenthesis in which a list of names stands follows the name of an operation.
fn opens_header(text: &[u8], list: &[Token], index: usize) -> bool {
    let mut place = index;
    for _ in 0..index {
        let before = word_at(text, list, place.saturating_sub(1));
        if before == b"(".as_slice() {
            let ahead = word_at(text, list, place.saturating_sub(3));
            return is_one_of(ahead, &["OPERATIONS", ";", "<--"]);
        }
        place = place.saturating_sub(2);
    }
    false
}

// Whether a token begins a statement.
fn begins_statement(text: &[u8], list: &[Token], index: usize) -> bool {
    if is_one_of(
        word_at(text, list, index),
        &["CHOICE", "SELECT", "ANY", "LET", "PRE"],
    ) {
        return true;
    }
    let before = word_at(text, list, index.saturating_sub(1));
    is_one_of(
        before,
        &[
            "BEGIN",
            "THEN",
            "ELSE",
            "IN",
            "DO",
            ";",
            "||",
            "INITIALISATION",
        ],
    ) || (before == b"=".as_slice() && starts_body(text, list, index))
}

// Whether a body begins at a token after `=`: what stands there is written.
fn starts_body(text: &[u8], list: &[Token], index: usize) -> bool {
    for place in index..list.len() {
        let word = word_at(text, list, place.saturating_add(1));
        if is_one_of(word, &[":=", "::", ":"]) {
            return true;
        }
        if word != b",".as_slice() && !is_behind_comma(text, list, place) {
            return false;
        }
    }
    false
}
