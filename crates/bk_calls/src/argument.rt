//! Names and arguments of calls.
ghost use Rattle.std.specs.Prelude.{◌≡◌, ◌<◌, ◌^◌, ℕ, ℤ, pos, neg_ℤ, IsTrue, IfOk, SomeIff, map};
ghost use Rattle.std.specs.List.{list_all};
ghost use Rattle.std.specs.Option.{option_map};
ghost use Rattle.std.specs.Str.{chars};
ghost use Rattle.bk_lex.specs.Lexis as lexis;
ghost use Rattle.bk_calls.specs.Reading as reading;
ghost use Rattle.bk_calls.specs.Held.{held};

use crate::line::{cut, is_spaces, skip_spaces, split_word};
use crate::table::WordTable;
use std::alloc::{AllocError, Global};
use unicode_ident::{is_xid_continue, is_xid_start};

/// What is written as an argument of a call. The least number of 64 bits, which lies in no range, stands for all numbers that
/// 64 bits do not hold.
#[derive(Clone, Copy)]
pub enum Argument<'a> {
    Number(i64),
    Truth(bool),
    Element(&'a [u8]),
}

fn is_identifier(text: &str) -> bool
    ensures { result ≡ lexis.is_identifier (chars text.now) }
{
    let mut characters = text.chars();
    match characters.next() {
        Some(first) => is_xid_start(first) && characters.all(|c| is_xid_continue(c)),
        None => false,
    }
}

/// Whether a text is a name: an identifier that is no word of the notation.
pub fn is_name(words: &WordTable, text: &[u8]) -> bool
    ensures { result ≡ reading.is_name text.now }
{
    match str::from_utf8(text) {
        Ok(characters) => is_identifier(characters) && words.number(text).is_none(),
        Err(_) => false,
    }
}

fn is_digit(byte: u8) -> bool
    ensures { result ≡ lexis.is_digit byte }
{
    byte.is_ascii_digit()
}

// Whether a text is one digit or more.
fn is_numeral(text: &[u8]) -> bool
    ensures { result ≡ lexis.is_numeral text.now }
{
    !text.is_empty() && text.iter().all(|b| is_digit(*b))
}

// The number that digits stand for, None from 2^64 on.
fn numeral(digits: &[u8]) -> Option<u64>
    requires { IsTrue (lexis.is_numeral digits.now) }
    ensures { SomeIff result (lexis.numeral_from 0 digits.now < 2 ^ 64) (lexis.numeral_from 0 digits.now) }
{
    let mut number: u64 = 0;
    for digit in digits {
        number = number
            .checked_mul(10)?
            .checked_add(u64::from(*digit - b'0'))?;
    }
    Some(number)
}

// The number that digits stand for, or the least of 64 bits where these do not hold it.
fn bounded_numeral(digits: &[u8]) -> i64
    requires { IsTrue (lexis.is_numeral digits.now) }
    ensures { result ≡ reading.kept (pos (lexis.numeral_from 0 digits.now)) }
{
    match numeral(digits) {
        Some(number) if number < 1 << 63 => number as i64,
        _ => i64::MIN,
    }
}

// The negation of a number from 0, for which the least of 64 bits may stand.
fn negated(number: i64) -> i64
    ensures { (n : ℕ) → number ≡ reading.kept (pos n) → result ≡ reading.kept (neg_ℤ (pos n)) }
{
    if number == i64::MIN {
        return number;
    }
    -number
}

fn digits_number(text: &[u8]) -> Option<i64>
    ensures { result ≡ option_map reading.kept (reading.digits_number text.now) }
{
    if is_numeral(text) {
        Some(bounded_numeral(text))
    } else {
        None
    }
}

// The number that digits with an optional minus are.
fn whole_number(text: &[u8]) -> Option<i64>
    ensures { result ≡ option_map reading.kept (reading.whole_number text.now) }
{
    match text.split_first() {
        Some((b'-', digits)) => Some(negated(digits_number(digits)?)),
        _ => digits_number(text),
    }
}

// The truth value or the name that a text is.
fn word_argument<'a>(words: &WordTable, text: &'a [u8]) -> Option<Argument<'a>>
    ensures { option_map held result ≡ option_map reading.kept_argument (reading.word_argument text.now) }
{
    if text == b"TRUE".as_slice() {
        Some(Argument::Truth(true))
    } else if text == b"FALSE".as_slice() {
        Some(Argument::Truth(false))
    } else if is_name(words, text) {
        Some(Argument::Element(text))
    } else {
        None
    }
}

fn argument_of<'a>(words: &WordTable, text: &'a [u8]) -> Option<Argument<'a>>
    ensures { option_map held result ≡ option_map reading.kept_argument (reading.argument_of text.now) }
{
    match whole_number(text) {
        Some(number) => Some(Argument::Number(number)),
        None => word_argument(words, text),
    }
}

// The argument that a text is, with spaces around it.
fn argument_in<'a>(words: &WordTable, text: &'a [u8]) -> Option<Argument<'a>>
    ensures { option_map held result ≡ option_map reading.kept_argument (reading.argument_in text.now) }
{
    let (word, behind) = split_word(skip_spaces(text));
    if is_spaces(behind) {
        argument_of(words, word)
    } else {
        None
    }
}

/// The arguments that stand between the parentheses of a call.
pub fn arguments_of<'a>(
    alloc: Global,
    words: &WordTable,
    inside: &'a [u8],
) -> Result<Option<Vec<Argument<'a>>>, AllocError>
    ensures { IfOk result (λ found. option_map (λ arguments. map held arguments.items) found ≡ reading.kept_arguments inside.now) }
{
    let mut arguments = Vec::new(alloc);
    if is_spaces(inside) {
        return Ok(Some(arguments));
    }
    let mut rest = Some(inside);
    while let Some(text) = rest {
        let (piece, behind) = cut(text, b',');
        let Some(argument) = argument_in(words, piece) else {
            return Ok(None);
        };
        arguments.push(argument)?;
        rest = behind;
    }
    Ok(Some(arguments))
}
