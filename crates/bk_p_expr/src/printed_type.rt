// Types that printed formulas name, and bound variables with their types.

ghost use Rattle.std.specs.Prelude.{◌≡◌, ◌<◌, ◌-◌, ◌≤◌, ℕ, None, Some, length, IfOk, MatchOption, IfSome};
ghost use Rattle.bk_raw.specs.Grammar.Reading.{bounds, typed};
ghost use Rattle.bk_p_expr.specs.Found.{FindsNone, FindsThis, ReadsThis};
ghost use Rattle.bk_p_expr.specs.PrintedTypes.{power, product, typed_bound};

use crate::front::{after_sign, bound_name, first_token};
use bk_form::{Token, TokenKind};
use bk_io::Memory;
use bk_ops::{sign, word};
use bk_raw::{RawBound, RawType, RawTypeNode};
use std::alloc::Global;

/// A type in front, and what stands after it.
#[tactic(auto, using(crate::proofs::Types::typed_empty_list, crate::proofs::Types::typed_set, crate::proofs::Types::typed_integer, crate::proofs::Types::typed_bool, crate::proofs::Types::typed_none_word, crate::proofs::Types::typed_none_sign))]
#[cycle(types)]
pub(crate) fn written_type(
    alloc: Global,
    tokens: &[Token],
) -> Result<Option<(RawType, &[Token])>, Memory>
    ensures found { ReadsThis (λ m. typed m tokens.now) (length tokens.now) result }
    ensures shorter { IfOk result (λ r. IfSome r (λ p. length p.1.now < length tokens.now)) }
{
    let Some((first, rest)) = first_token(tokens) else {
        return Ok(None);
    };
    let node = match &first.kind {
        TokenKind::Name(name) => RawTypeNode::Set(name.copy(alloc)?),
        TokenKind::Word(op) if *op == word::INTEGER => RawTypeNode::Integer,
        TokenKind::Word(op) if *op == word::BOOL => RawTypeNode::Bool,
        TokenKind::Word(op) if *op == word::POW => return power(alloc, rest),
        TokenKind::Sign(op) if *op == sign::OPEN_PAREN => return product(alloc, rest),
        _ => return Ok(None),
    };
    Ok(Some((RawType { node }, rest)))
}

/// `(T)` after `POW`.
#[tactic(auto, using(crate::proofs::Types::power_none, crate::proofs::Types::power_none_inside, crate::proofs::Types::power_none_last, crate::proofs::Types::power_some))]
#[cycle(types)]
fn power(alloc: Global, tokens: &[Token]) -> Result<Option<(RawType, &[Token])>, Memory>
    ensures found { ReadsThis (λ m. power m tokens.now) (length tokens.now) result }
    ensures shorter { IfOk result (λ r. IfSome r (λ p. length p.1.now < length tokens.now)) }
{
    let Some((_, inside)) = after_sign(tokens, sign::OPEN_PAREN) else {
        return Ok(None);
    };
    let Some((elements, rest)) = written_type(alloc, inside)? else {
        return Ok(None);
    };
    let Some((_, rest)) = after_sign(rest, sign::CLOSE_PAREN) else {
        return Ok(None);
    };
    let node = RawTypeNode::Power(Box::new(alloc, elements)?);
    Ok(Some((RawType { node }, rest)))
}

/// `T * U)` after a parenthesis.
#[tactic(auto, using(crate::proofs::Types::product_none, crate::proofs::Types::product_none_times, crate::proofs::Types::product_none_right, crate::proofs::Types::product_none_last, crate::proofs::Types::product_some))]
#[cycle(types)]
fn product(alloc: Global, tokens: &[Token]) -> Result<Option<(RawType, &[Token])>, Memory>
    ensures found { ReadsThis (λ m. product m tokens.now) (length tokens.now) result }
    ensures shorter { IfOk result (λ r. IfSome r (λ p. length p.1.now < length tokens.now)) }
{
    let Some((left, rest)) = written_type(alloc, tokens)? else {
        return Ok(None);
    };
    let Some((_, rest)) = after_sign(rest, sign::TIMES) else {
        return Ok(None);
    };
    let Some((right, rest)) = written_type(alloc, rest)? else {
        return Ok(None);
    };
    let Some((_, rest)) = after_sign(rest, sign::CLOSE_PAREN) else {
        return Ok(None);
    };
    let left = Box::new(alloc, left)?;
    let right = Box::new(alloc, right)?;
    let node = RawTypeNode::Product(left, right);
    Ok(Some((RawType { node }, rest)))
}

/// `$1:T,$2:U` in front, and what stands after it.
#[tactic(auto, using(crate::proofs::Lists::bounds_begins, crate::proofs::Lists::bounds_goes_on, crate::proofs::Lists::bounds_ends, crate::proofs::Lists::bounds_fails))]
pub(crate) fn typed_names(
    alloc: Global,
    tokens: &[Token],
) -> Result<Option<(Vec<RawBound>, &[Token])>, Memory>
    ensures found { IfOk result (λ r. MatchOption r (FindsNone (λ m. bounds m tokens.now) (length tokens.now))
        (λ p. FindsThis (λ m. bounds m tokens.now) (length tokens.now) p.0.items p.1.now)) }
    ensures shorter { IfOk result (λ r. IfSome r (λ p. length p.1.now < length tokens.now)) }
{
    let mut all = Vec::new(alloc);
    let mut rest = tokens;
    loop {
        let Some((bound, after)) = typed_name(alloc, rest)? else {
            return Ok(None);
        };
        all.push(bound)?;
        let Some((_, more)) = after_sign(after, sign::COMMA) else {
            return Ok(Some((all, after)));
        };
        rest = more;
    }
}

/// `$n:T` in front, and what stands after it.
#[tactic(auto, using(crate::proofs::Binders::typed_name_none, crate::proofs::Binders::typed_name_none_type, crate::proofs::Binders::typed_name_some))]
fn typed_name(alloc: Global, tokens: &[Token]) -> Result<Option<(RawBound, &[Token])>, Memory>
    ensures found { ReadsThis (λ m. typed_bound m tokens.now) (length tokens.now - 1) result }
    ensures shorter { IfOk result (λ r. IfSome r (λ p. length p.1.now < length tokens.now)) }
{
    let Some((at, number, rest)) = bound_name(tokens) else {
        return Ok(None);
    };
    let Some((ty, rest)) = written_type(alloc, rest)? else {
        return Ok(None);
    };
    Ok(Some((RawBound { at, number, ty }, rest)))
}
