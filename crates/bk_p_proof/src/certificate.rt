// Certificates of linear arithmetic.
//
// Where no further one stands after a sign between two, the list ends before the sign.

ghost use Rattle.std.specs.Prelude.{◌≡◌, ◌<◌, ◌≤◌, ℕ, pos, map, length, IfOk, IfSome, MatchOption};
ghost use Rattle.bk_ops.specs.declared.sign.TheConstants.{BAR, COMMA, PLUS};
ghost use Rattle.bk_raw.specs.Grammar.Pieces.{AnyDivided, Digits, Divided, Literal};
ghost use Rattle.bk_raw.specs.Grammar.ScriptSpelling.{Line, Multiple};
ghost use Rattle.bk_raw.specs.Codes.ScriptView.{line_of};
ghost use Rattle.bk_p_expr.specs.Fronts.{Longest, Nothing};
ghost use Rattle.bk_form.specs.declared.token.TokenKind.TheVariants.{Number};
ghost use Rattle.bk_p_proof.specs.Ahead.{Ahead};
ghost use Rattle.bk_p_proof.specs.Kinds.{Certified, Quotient};

use crate::token::{after_sign, digits, first_token};
use bk_form::{Token, TokenKind};
use bk_io::Memory;
use bk_ops::sign;
use bk_raw::{RawLine, RawMultiple};
use std::alloc::Global;

/// The numbers of hypotheses, `:`, and the lines of a certificate in front, and what stands after them.
pub(crate) fn certificate(
    alloc: Global,
    tokens: &[Token],
) -> Result<Option<(Vec<u128>, Vec<RawLine>, &[Token])>, Memory>
    ensures found { IfOk result (λ r. MatchOption r (Nothing Certified tokens.now)
        (λ p. Longest Certified tokens.now (p.0.items, map line_of p.1.items) p.2.now)) }
    ensures shorter { IfOk result (λ r. IfSome r (λ p. length p.2.now < length tokens.now)) }
{
    let (facts, behind) = facts(alloc, tokens)?;
    let Some(behind) = after_sign(behind, sign::MEMBER) else {
        return Ok(None);
    };
    let Some((lines, rest)) = lines(alloc, behind)? else {
        return Ok(None);
    };
    Ok(Some((facts, lines, rest)))
}

/// Numbers with commas between, none at all where no number is in front, and what stands after them.
fn facts(alloc: Global, tokens: &[Token]) -> Result<(Vec<u128>, &[Token]), Memory>
    ensures found { IfOk result (λ p. Longest (AnyDivided COMMA Digits) tokens.now p.0.items p.1.now) }
    ensures shorter { IfOk result (λ p. length p.1.now ≤ length tokens.now) }
{
    let mut all = Vec::new(alloc);
    let Some((first, after)) = digits(tokens) else {
        return Ok((all, tokens));
    };
    all.push(first)?;
    let mut rest = after;
    while let Some(behind) = after_sign(rest, sign::COMMA) {
        let Some((number, after)) = digits(behind) else {
            return Ok((all, rest));
        };
        all.push(number)?;
        rest = after;
    }
    Ok((all, rest))
}

/// Lines with `|` between, and what stands after them.
fn lines(alloc: Global, tokens: &[Token]) -> Result<Option<(Vec<RawLine>, &[Token])>, Memory>
    ensures found { IfOk result (λ r. MatchOption r (Nothing (Divided BAR Line) tokens.now)
        (λ p. Longest (Divided BAR Line) tokens.now (map line_of p.0.items) p.1.now)) }
    ensures shorter { IfOk result (λ r. IfSome r (λ p. length p.1.now < length tokens.now)) }
{
    let Some((first, after)) = line(alloc, tokens)? else {
        return Ok(None);
    };
    let mut all = Vec::new(alloc);
    all.push(first)?;
    let mut rest = after;
    while let Some(behind) = after_sign(rest, sign::BAR) {
        let Some((line, after)) = line(alloc, behind)? else {
            return Ok(Some((all, rest)));
        };
        all.push(line)?;
        rest = after;
    }
    Ok(Some((all, rest)))
}

/// A line in front, and what stands after it.
fn line(alloc: Global, tokens: &[Token]) -> Result<Option<(RawLine, &[Token])>, Memory>
    ensures found { IfOk result (λ r. MatchOption r (Nothing Line tokens.now)
        (λ p. Longest Line tokens.now (line_of p.0) p.1.now)) }
    ensures shorter { IfOk result (λ r. IfSome r (λ p. length p.1.now < length tokens.now)) }
{
    if let Some((fact, by, rest)) = quotient(tokens) {
        return Ok(Some((RawLine::Quotient(fact, by), rest)));
    }
    let Some((multiples, rest)) = multiples(alloc, tokens)? else {
        return Ok(None);
    };
    Ok(Some((RawLine::Sum(multiples), rest)))
}

/// `k / g` in front, and what stands after it.
fn quotient(tokens: &[Token]) -> Option<(u128, u128, &[Token])>
    ensures found { MatchOption result (Nothing Quotient tokens.now) (λ p. Longest Quotient tokens.now (p.0, p.1) p.2.now) }
    ensures shorter { IfSome result (λ p. length p.2.now < length tokens.now) }
{
    let Some((fact, behind)) = digits(tokens) else {
        return None;
    };
    let Some(behind) = after_sign(behind, sign::DIVIDE) else {
        return None;
    };
    let Some((by, rest)) = digits(behind) else {
        return None;
    };
    Some((fact, by, rest))
}

/// `m * k` with `+` between, and what stands after them.
fn multiples(
    alloc: Global,
    tokens: &[Token],
) -> Result<Option<(Vec<RawMultiple>, &[Token])>, Memory>
    ensures found { IfOk result (λ r. MatchOption r (Nothing (Divided PLUS Multiple) tokens.now)
        (λ p. Longest (Divided PLUS Multiple) tokens.now p.0.items p.1.now)) }
    ensures shorter { IfOk result (λ r. IfSome r (λ p. length p.1.now < length tokens.now)) }
{
    let Some((first, after)) = multiple(tokens) else {
        return Ok(None);
    };
    let mut all = Vec::new(alloc);
    all.push(first)?;
    let mut rest = after;
    while let Some(behind) = after_sign(rest, sign::PLUS) {
        let Some((multiple, after)) = multiple(behind) else {
            return Ok(Some((all, rest)));
        };
        all.push(multiple)?;
        rest = after;
    }
    Ok(Some((all, rest)))
}

/// `m * k` in front, and what stands after it.
fn multiple(tokens: &[Token]) -> Option<(RawMultiple, &[Token])>
    ensures found { MatchOption result (Nothing Multiple tokens.now) (λ p. Longest Multiple tokens.now p.0 p.1.now) }
    ensures shorter { IfSome result (λ p. length p.1.now < length tokens.now) }
{
    let Some((multiplier, behind)) = literal(tokens) else {
        return None;
    };
    let Some(behind) = after_sign(behind, sign::TIMES) else {
        return None;
    };
    let Some((fact, rest)) = digits(behind) else {
        return None;
    };
    Some((RawMultiple { multiplier, fact }, rest))
}

/// A number in front, perhaps with a minus sign, and what stands after it.
fn literal(tokens: &[Token]) -> Option<(i128, &[Token])>
    ensures found { MatchOption result (Nothing (λ z. Literal z 0) tokens.now)
        (λ p. Longest (λ z. Literal z 0) tokens.now p.0 p.1.now) }
    ensures shorter { IfSome result (λ p. length p.1.now < length tokens.now) }
{
    if let Some(behind) = after_sign(tokens, sign::MINUS) {
        let Some((number, rest)) = natural(behind) else {
            return None;
        };
        return Some((-number, rest));
    }
    let Some((number, rest)) = natural(tokens) else {
        return None;
    };
    Some((number, rest))
}

/// A number in front, and what stands after it.
fn natural(tokens: &[Token]) -> Option<(i128, &[Token])>
    ensures found { MatchOption result (Nothing Digits tokens.now)
        (λ p. (n : ℕ) × (p.0 ≡ pos n) × Ahead (Number (pos n)) tokens.now p.1.now) }
    ensures shorter { IfSome result (λ p. length p.1.now < length tokens.now) }
{
    let Some((first, rest)) = first_token(tokens) else {
        return None;
    };
    let Some(number) = natural_of(&first.kind) else {
        return None;
    };
    Some((number, rest))
}

/// The number that a token is.
fn natural_of(kind: &TokenKind) -> Option<i128>
    ensures { MatchOption result ((n : ℕ) → kind.now ≡ Number (pos n) → ⊥)
        (λ z. (n : ℕ) × (z ≡ pos n) × (kind.now ≡ Number (pos n))) }
{
    match kind {
        TokenKind::Number(value) if *value >= 0 => Some(*value),
        _ => None,
    }
}
