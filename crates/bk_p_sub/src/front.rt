// Signs, words, names and terms that stand in front of tokens.

ghost use Rattle.std.specs.Prelude.{◌≡◌, ◌↔◌, ◌<◌, None, Some, true, [], ◌∷◌, length, IfOk, IfSome, IsTrue, MatchOption};
ghost use Rattle.bk_raw.specs.Grammar.Pieces.{JustWord, ◌⌢◌};
ghost use Rattle.bk_raw.specs.Grammar.Reading.{name, start};
ghost use Rattle.bk_raw.specs.Grammar.Spelling.{Names, Spells, Terms as Listed};
ghost use Rattle.bk_p_expr.specs.Fronts.{Longest, Nothing};
ghost use Rattle.bk_p_sub.specs.Found.{Ahead, Before, FoundBefore, FoundTerms, NotAhead, is_behind_term};

use crate::term::Term;
use bk_form::{Token, TokenKind};
use bk_io::Memory;
use bk_ops::sign;
use bk_p_expr::{Terms, front_term};
use bk_raw::RawName;
use std::alloc::Global;

/// The byte at which the first of the tokens starts.
pub fn start_of(tokens: &[Token]) -> usize
    ensures { result ≡ start tokens.now }
{
    match tokens {
        [first, ..] => first.start,
        [] => 0,
    }
}

/// The token in front, and what stands after it.
pub fn first_token(tokens: &[Token]) -> Option<(&Token, &[Token])>
    ensures { MatchOption result (tokens.now ≡ []) (λ p. tokens.now ≡ p.0.now ∷ p.1.now) }
{
    let [first, rest @ ..] = tokens else {
        return None;
    };
    Some((first, rest))
}

/// What stands after the sign of this number, if it stands in front.
pub fn after_sign(tokens: &[Token], op: u16) -> Option<&[Token]>
    ensures found { MatchOption result (NotAhead (TokenKind.Sign op) tokens.now)
        (λ p. Ahead (TokenKind.Sign op) tokens.now p.now) }
    ensures shorter { IfSome result (λ p. length p.now < length tokens.now) }
{
    let Some((first, rest)) = first_token(tokens) else {
        return None;
    };
    if !is_sign(&first.kind, op) {
        return None;
    }
    Some(rest)
}

/// What stands after the word of this number, if it stands in front.
pub fn after_word(tokens: &[Token], op: u16) -> Option<&[Token]>
    ensures found { MatchOption result (NotAhead (TokenKind.Word op) tokens.now)
        (λ p. Ahead (TokenKind.Word op) tokens.now p.now) }
    ensures shorter { IfSome result (λ p. length p.now < length tokens.now) }
{
    let Some((first, rest)) = first_token(tokens) else {
        return None;
    };
    if !is_word(&first.kind, op) {
        return None;
    }
    Some(rest)
}

/// Whether a token is the sign of this number.
fn is_sign(kind: &TokenKind, op: u16) -> bool
    ensures { IsTrue result ↔ (kind.now ≡ TokenKind.Sign op) }
{
    match kind {
        TokenKind::Sign(found) => *found == op,
        _ => false,
    }
}

/// Whether a token is the word of this number.
fn is_word(kind: &TokenKind, op: u16) -> bool
    ensures { IsTrue result ↔ (kind.now ≡ TokenKind.Word op) }
{
    match kind {
        TokenKind::Word(found) => *found == op,
        _ => false,
    }
}

/// A name in front, and what stands after it.
pub fn declared(alloc: Global, tokens: &[Token]) -> Result<Option<(RawName, &[Token])>, Memory>
    ensures found { IfOk result (λ r. MatchOption r (name tokens.now ≡ None)
        (λ p. name tokens.now ≡ Some (p.0, p.1.now))) }
    ensures shorter { IfOk result (λ r. IfSome r (λ p. length p.1.now < length tokens.now)) }
{
    let [first, rest @ ..] = tokens else {
        return Ok(None);
    };
    match &first.kind {
        TokenKind::Name(text) => {
            let at = first.start;
            let text = text.copy(alloc)?;
            Ok(Some((RawName { at, text }, rest)))
        }
        _ => Ok(None),
    }
}

/// Names with commas between, and what stands after them.
pub fn names(alloc: Global, tokens: &[Token]) -> Result<Option<(Vec<RawName>, &[Token])>, Memory>
    ensures found { IfOk result (λ r. MatchOption r (Nothing Names tokens.now)
        (λ p. Longest Names tokens.now p.0.items p.1.now)) }
    ensures shorter { IfOk result (λ r. IfSome r (λ p. length p.1.now < length tokens.now)) }
{
    let Some((first, after)) = declared(alloc, tokens)? else {
        return Ok(None);
    };
    let mut all = Vec::new(alloc);
    all.push(first)?;
    let mut rest = after;
    while let Some(behind) = after_sign(rest, sign::COMMA) {
        let Some((name, after)) = declared(alloc, behind)? else {
            return Ok(Some((all, rest)));
        };
        all.push(name)?;
        rest = after;
    }
    Ok(Some((all, rest)))
}

/// Terms with commas between, and what stands after them.
pub(crate) fn terms(alloc: Global, tokens: &[Token]) -> Result<Option<(Terms, &[Token])>, Memory>
    ensures found { IfOk result (λ r. MatchOption r (Nothing Listed tokens.now)
        (λ p. FoundTerms tokens.now p.0 p.1.now)) }
    ensures shorter { IfOk result (λ r. IfSome r (λ p. length p.1.now < length tokens.now)) }
{
    let Some((first, after)) = front_term(alloc, tokens)? else {
        return Ok(None);
    };
    let none = Terms::Built(Vec::new(alloc), 0);
    let mut all = none.and(alloc, first)?;
    let mut rest = after;
    while let Some(behind) = after_sign(rest, sign::COMMA) {
        let Some((term, after)) = front_term(alloc, behind)? else {
            return Ok(Some((all, rest)));
        };
        all = all.and(alloc, term)?;
        rest = after;
    }
    Ok(Some((all, rest)))
}

/// A term and the word of this number after it, and what stands after the word.
pub(crate) fn term_before(
    alloc: Global,
    tokens: &[Token],
    op: u16,
) -> Result<Option<(Term, &[Token])>, Memory>
    requires { is_behind_term op ≡ true }
    ensures found { IfOk result (λ r. MatchOption r (Nothing (λ t. Spells t ⌢ JustWord op) tokens.now)
        (λ p. FoundBefore (TokenKind.Word op) tokens.now p.0 p.1.now)) }
    ensures shorter { IfOk result (λ r. IfSome r (λ p. length p.1.now < length tokens.now)) }
{
    let Some((term, after)) = Term::front(alloc, tokens)? else {
        return Ok(None);
    };
    let Some(rest) = after_word(after, op) else {
        return Ok(None);
    };
    Ok(Some((term, rest)))
}

/// Names and the word of this number after them, and what stands after the word.
pub(crate) fn names_before(
    alloc: Global,
    tokens: &[Token],
    op: u16,
) -> Result<Option<(Vec<RawName>, &[Token])>, Memory>
    ensures found { IfOk result (λ r. MatchOption r (Nothing (λ xs. Names xs ⌢ JustWord op) tokens.now)
        (λ p. Before Names (TokenKind.Word op) tokens.now p.0.items p.1.now)) }
    ensures shorter { IfOk result (λ r. IfSome r (λ p. length p.1.now < length tokens.now)) }
{
    let Some((names, after)) = names(alloc, tokens)? else {
        return Ok(None);
    };
    let Some(rest) = after_word(after, op) else {
        return Ok(None);
    };
    Ok(Some((names, rest)))
}
