// Signs, names and numbers that stand in front of tokens.

ghost use Rattle.std.specs.Prelude.{◌≡◌, ◌↔◌, ◌<◌, ℕ, List, [], ◌∷◌, length, pos, IsTrue, IfSome, MatchOption, None, Some, IfOk};
ghost use Rattle.bk_form.specs.declared.token.TokenKind.TheVariants.{Number};
ghost use Rattle.bk_raw.specs.Grammar.Pieces.{Digits};
ghost use Rattle.bk_raw.specs.Grammar.Spelling.{Declared};
ghost use Rattle.bk_p_expr.specs.Fronts.{Longest, Nothing};
ghost use Rattle.bk_p_proof.specs.Ahead.{Ahead, NotAhead};

use bk_form::{Token, TokenKind};
use bk_io::{Memory, Text};
use bk_raw::RawName;
use std::alloc::Global;

/// The token in front, and what stands after it.
pub(crate) fn first_token(tokens: &[Token]) -> Option<(&Token, &[Token])>
    ensures { MatchOption result (tokens.now ≡ []) (λ p. tokens.now ≡ p.0.now ∷ p.1.now) }
{
    let [first, rest @ ..] = tokens else {
        return None;
    };
    Some((first, rest))
}

/// What stands after the sign of this number, if it stands in front.
pub(crate) fn after_sign(tokens: &[Token], op: u16) -> Option<&[Token]>
    ensures found { MatchOption result (NotAhead (TokenKind.Sign op) tokens.now)
        (λ p. Ahead (TokenKind.Sign op) tokens.now p.now) }
    ensures shorter { IfSome result (λ p. length p.now < length tokens.now) }
{
    let Some((first, rest)) = first_token(tokens) else {
        return None;
    };
    if !is_sign(&first.kind, op) {
        return None;
    }
    Some(rest)
}

/// What stands after the name with these letters, if it stands in front.
pub(crate) fn after_name<'a>(tokens: &'a [Token], text: &[u8]) -> Option<&'a [Token]>
    ensures found { MatchOption result (NotAhead (TokenKind.Name text.now) tokens.now)
        (λ p. Ahead (TokenKind.Name text.now) tokens.now p.now) }
    ensures shorter { IfSome result (λ p. length p.now < length tokens.now) }
{
    let Some((first, rest)) = first_token(tokens) else {
        return None;
    };
    if !is_name(&first.kind, text) {
        return None;
    }
    Some(rest)
}

/// Whether a token is the sign of this number.
fn is_sign(kind: &TokenKind, op: u16) -> bool
    ensures { IsTrue result ↔ (kind.now ≡ TokenKind.Sign op) }
{
    match kind {
        TokenKind::Sign(found) => *found == op,
        _ => false,
    }
}

/// Whether a token is the name with these letters.
pub(crate) fn is_name(kind: &TokenKind, text: &[u8]) -> bool
    ensures { IsTrue result ↔ (kind.now ≡ TokenKind.Name text.now) }
{
    match kind {
        TokenKind::Name(name) => name.as_bytes() == text,
        _ => false,
    }
}

/// The number in front, and what stands after it.
pub(crate) fn digits(tokens: &[Token]) -> Option<(u128, &[Token])>
    ensures found { MatchOption result (Nothing Digits tokens.now) (λ p. Ahead (Number (pos p.0)) tokens.now p.1.now) }
    ensures shorter { IfSome result (λ p. length p.1.now < length tokens.now) }
{
    let Some((first, rest)) = first_token(tokens) else {
        return None;
    };
    let Some(number) = number_of(&first.kind) else {
        return None;
    };
    Some((number, rest))
}

/// The number that a token is.
fn number_of(kind: &TokenKind) -> Option<u128>
    ensures { MatchOption result ((n : ℕ) → kind.now ≡ Number (pos n) → ⊥) (λ n. kind.now ≡ Number (pos n)) }
{
    match kind {
        TokenKind::Number(value) => u128::try_from(*value).ok(),
        _ => None,
    }
}

/// A name in front, and what stands after it.
pub(crate) fn declared(
    alloc: Global,
    tokens: &[Token],
) -> Result<Option<(RawName, &[Token])>, Memory>
    ensures found { IfOk result (λ r. MatchOption r (Nothing Declared tokens.now)
        (λ p. Longest Declared tokens.now p.0 p.1.now)) }
    ensures shorter { IfOk result (λ r. IfSome r (λ p. length p.1.now < length tokens.now)) }
{
    let Some((first, rest)) = first_token(tokens) else {
        return Ok(None);
    };
    let Some(text) = name_of(alloc, &first.kind)? else {
        return Ok(None);
    };
    let at = first.start;
    Ok(Some((RawName { at, text }, rest)))
}

/// The letters of the name that a token is.
pub(crate) fn name_of(alloc: Global, kind: &TokenKind) -> Result<Option<Text>, Memory>
    ensures { IfOk result (λ r. MatchOption r ((x : List ℕ) → kind.now ≡ TokenKind.Name x → ⊥)
        (λ x. kind.now ≡ TokenKind.Name x)) }
{
    match kind {
        TokenKind::Name(text) => Ok(Some(text.copy(alloc)?)),
        _ => Ok(None),
    }
}
