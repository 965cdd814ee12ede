//! Whether two texts differ in blanks and line ends alone.

ghost use Rattle.std.specs.Prelude.{◌≡◌, true, IfOk};
ghost use Rattle.bk_form.specs.declared.token.TokenKind.TheVariants as kind;
ghost use Rattle.bk_lex.specs.Lexis.{AreTokens};
ghost use Rattle.bk_layout.specs.Laid as meant;
ghost use Rattle.bk_layout.specs.Laid.{IsLaidOut, kinds};

use bk_form::{Token, TokenKind};
use bk_io::{Memory, Text};
use bk_lex::laws::tokens_are_one;
use bk_lex::{LexFault, tokens};
use std::alloc::Global;

/// A blank or a line feed.
pub(crate) fn is_gap(byte: u8) -> bool
    ensures { result ≡ meant.is_gap byte }
{
    byte == b' ' || byte == b'\n'
}

/// Whether the second text is the first one, which has these tokens, with other blanks and line ends between tokens. An answer of
/// false says nothing.
pub(crate) fn is_laid_out(
    alloc: Global,
    text: &[u8],
    tokens_of_text: &[Token],
    laid: &[u8],
) -> Result<bool, Memory>
    requires { AreTokens text.now tokens_of_text.now }
    ensures { IfOk result (λ is. is ≡ true → IsLaidOut text.now laid.now) }
{
    tokens_are_one();
    if !are_solid_alike(alloc, text, laid)? {
        return Ok(false);
    }
    match tokens(alloc, laid) {
        Ok(others) => Ok(are_of_same_kinds(tokens_of_text, &others)),
        Err(LexFault::Memory) => Err(Memory),
        Err(_) => Ok(false),
    }
}

// Whether both texts are the same but for blanks and line feeds.
fn are_solid_alike(alloc: Global, one: &[u8], other: &[u8]) -> Result<bool, Memory>
    ensures { IfOk result (λ is. is ≡ true → meant.solid other.now ≡ meant.solid one.now) }
{
    let left = solid(alloc, one)?;
    let right = solid(alloc, other)?;
    Ok(right == left)
}

// The bytes that are neither blanks nor line feeds.
fn solid(alloc: Global, text: &[u8]) -> Result<Vec<u8>, Memory>
    ensures { IfOk result (λ bytes. bytes.items ≡ meant.solid text.now) }
{
    Ok(
        text.iter()
            .copied()
            .filter(|byte| !is_gap(*byte))
            .collect(alloc)?,
    )
}

// Whether the tokens are of the same kinds in the same order.
fn are_of_same_kinds(one: &[Token], other: &[Token]) -> bool
    ensures { result ≡ true → kinds other.now ≡ kinds one.now }
{
    if one.len() != other.len() {
        return false;
    }
    for (index, token) in one.iter().enumerate() {
        if !is_same(&token.kind, &other[index].kind) {
            return false;
        }
    }
    true
}

// Whether both are the same.
fn is_same(one: &TokenKind, other: &TokenKind) -> bool
    ensures { result ≡ true → other.now ≡ one.now }
{
    match one {
        TokenKind::Name(name) => is_name(other, name),
        TokenKind::LevelName(name, level) => is_level_name(other, name, *level),
        TokenKind::BoundName(number) => is_bound_name(other, *number),
        TokenKind::Number(value) => is_number(other, *value),
        TokenKind::Sign(op) => is_sign(other, *op),
        TokenKind::Word(op) => is_word(other, *op),
    }
}

fn is_name(other: &TokenKind, name: &Text) -> bool
    ensures { result ≡ true → other.now ≡ kind.Name name.now }
{
    match other {
        TokenKind::Name(text) => text.equal(name),
        _ => false,
    }
}

fn is_level_name(other: &TokenKind, name: &Text, level: u32) -> bool
    ensures { result ≡ true → other.now ≡ kind.LevelName name.now level }
{
    match other {
        TokenKind::LevelName(text, number) => text.equal(name) && *number == level,
        _ => false,
    }
}

fn is_bound_name(other: &TokenKind, number: u32) -> bool
    ensures { result ≡ true → other.now ≡ kind.BoundName number }
{
    match other {
        TokenKind::BoundName(found) => *found == number,
        _ => false,
    }
}

fn is_number(other: &TokenKind, value: i128) -> bool
    ensures { result ≡ true → other.now ≡ kind.Number value }
{
    match other {
        TokenKind::Number(found) => *found == value,
        _ => false,
    }
}

fn is_sign(other: &TokenKind, op: u16) -> bool
    ensures { result ≡ true → other.now ≡ kind.Sign op }
{
    match other {
        TokenKind::Sign(found) => *found == op,
        _ => false,
    }
}

fn is_word(other: &TokenKind, op: u16) -> bool
    ensures { result ≡ true → other.now ≡ kind.Word op }
{
    match other {
        TokenKind::Word(found) => *found == op,
        _ => false,
    }
}
