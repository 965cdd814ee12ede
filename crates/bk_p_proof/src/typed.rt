// Names with their types.

ghost use Rattle.std.specs.Prelude.{◌≡◌, ◌<◌, ◌≤◌, ◌∷◌, length, IfOk, IfSome, MatchOption};
ghost use Rattle.bk_ops.specs.declared.sign.TheConstants.{COMMA};
ghost use Rattle.bk_raw.specs.Grammar.Pieces.{Divided};
ghost use Rattle.bk_raw.specs.Grammar.Spelling.{Typed};
ghost use Rattle.bk_raw.specs.Grammar.ScriptSpelling.{TypedName};
ghost use Rattle.bk_p_expr.specs.Fronts.{Longest, Nothing};
ghost use Rattle.bk_form.specs.declared.token.Token.{Token};

use crate::token::{after_sign, declared, first_token};
use bk_form::{Token, TokenKind};
use bk_io::Memory;
use bk_ops::{sign, word};
use bk_raw::{RawType, RawTypeNode, RawTyped};
use std::alloc::Global;

/// `x : T` with commas between in front, and what stands after them. Where none stands after a comma, they end before it.
pub(crate) fn typed_names(
    alloc: Global,
    tokens: &[Token],
) -> Result<Option<(Vec<RawTyped>, &[Token])>, Memory>
    ensures found { IfOk result (λ r. MatchOption r (Nothing (Divided COMMA TypedName) tokens.now)
        (λ p. Longest (Divided COMMA TypedName) tokens.now p.0.items p.1.now)) }
    ensures shorter { IfOk result (λ r. IfSome r (λ p. length p.1.now < length tokens.now)) }
{
    let Some((first, after)) = typed_name(alloc, tokens)? else {
        return Ok(None);
    };
    let mut all = Vec::new(alloc);
    all.push(first)?;
    let mut rest = after;
    while let Some(behind) = after_sign(rest, sign::COMMA) {
        let Some((name, after)) = typed_name(alloc, behind)? else {
            return Ok(Some((all, rest)));
        };
        all.push(name)?;
        rest = after;
    }
    Ok(Some((all, rest)))
}

/// `x : T` in front, and what stands after it.
fn typed_name(alloc: Global, tokens: &[Token]) -> Result<Option<(RawTyped, &[Token])>, Memory>
    ensures found { IfOk result (λ r. MatchOption r (Nothing TypedName tokens.now)
        (λ p. Longest TypedName tokens.now p.0 p.1.now)) }
    ensures shorter { IfOk result (λ r. IfSome r (λ p. length p.1.now < length tokens.now)) }
{
    let Some((name, behind)) = declared(alloc, tokens)? else {
        return Ok(None);
    };
    let Some(behind) = after_sign(behind, sign::MEMBER) else {
        return Ok(None);
    };
    let Some((ty, rest)) = written_type(alloc, behind)? else {
        return Ok(None);
    };
    Ok(Some((RawTyped { name, ty }, rest)))
}

/// A type in front, and what stands after it.
#[cycle(types)]
fn written_type(alloc: Global, tokens: &[Token]) -> Result<Option<(RawType, &[Token])>, Memory>
    ensures found { IfOk result (λ r. MatchOption r (Nothing Typed tokens.now)
        (λ p. Longest Typed tokens.now p.0 p.1.now)) }
    ensures shorter { IfOk result (λ r. IfSome r (λ p. length p.1.now < length tokens.now)) }
{
    let Some((first, rest)) = first_token(tokens) else {
        return Ok(None);
    };
    match &first.kind {
        TokenKind::Name(name) => {
            let node = RawTypeNode::Set(name.copy(alloc)?);
            Ok(Some((RawType { node }, rest)))
        }
        TokenKind::Word(op) => type_by_word(alloc, *op, rest),
        TokenKind::Sign(op) => type_by_sign(alloc, *op, rest),
        _ => Ok(None),
    }
}

/// The type that begins with the word of this number.
#[cycle(types)]
fn type_by_word(
    alloc: Global,
    op: u16,
    tokens: &[Token],
) -> Result<Option<(RawType, &[Token])>, Memory>
    ensures found { (t : Token) → t.kind ≡ TokenKind.Word op → IfOk result (λ r.
        MatchOption r (Nothing Typed (t ∷ tokens.now)) (λ p. Longest Typed (t ∷ tokens.now) p.0 p.1.now)) }
    ensures shorter { IfOk result (λ r. IfSome r (λ p. length p.1.now ≤ length tokens.now)) }
{
    if op == word::INTEGER {
        let node = RawTypeNode::Integer;
        return Ok(Some((RawType { node }, tokens)));
    }
    if op == word::BOOL {
        let node = RawTypeNode::Bool;
        return Ok(Some((RawType { node }, tokens)));
    }
    if op != word::POW {
        return Ok(None);
    }
    let Some(inside) = after_sign(tokens, sign::OPEN_PAREN) else {
        return Ok(None);
    };
    let Some((elements, behind)) = written_type(alloc, inside)? else {
        return Ok(None);
    };
    let Some(rest) = after_sign(behind, sign::CLOSE_PAREN) else {
        return Ok(None);
    };
    let node = RawTypeNode::Power(Box::new(alloc, elements)?);
    Ok(Some((RawType { node }, rest)))
}

/// The type that begins with the sign of this number.
#[cycle(types)]
fn type_by_sign(
    alloc: Global,
    op: u16,
    tokens: &[Token],
) -> Result<Option<(RawType, &[Token])>, Memory>
    ensures found { (t : Token) → t.kind ≡ TokenKind.Sign op → IfOk result (λ r.
        MatchOption r (Nothing Typed (t ∷ tokens.now)) (λ p. Longest Typed (t ∷ tokens.now) p.0 p.1.now)) }
    ensures shorter { IfOk result (λ r. IfSome r (λ p. length p.1.now ≤ length tokens.now)) }
{
    if op != sign::OPEN_PAREN {
        return Ok(None);
    }
    let Some((left, behind)) = written_type(alloc, tokens)? else {
        return Ok(None);
    };
    let Some(behind) = after_sign(behind, sign::TIMES) else {
        return Ok(None);
    };
    let Some((right, behind)) = written_type(alloc, behind)? else {
        return Ok(None);
    };
    let Some(rest) = after_sign(behind, sign::CLOSE_PAREN) else {
        return Ok(None);
    };
    let left = Box::new(alloc, left)?;
    let right = Box::new(alloc, right)?;
    let node = RawTypeNode::Product(left, right);
    Ok(Some((RawType { node }, rest)))
}
