// Signs and names that stand in front of tokens: what is read without a term.

ghost use Rattle.std.specs.Prelude.{◌≡◌, ◌<◌, None, Some, true, false, [], ◌∷◌, length, IfOk, MatchOption, IfSome};
ghost use Rattle.bk_raw.specs.Grammar.Reading.{begins_bound, begins_with, binder, bound, name, names, next, sign};

use bk_form::{Token, TokenKind};
use bk_io::Memory;
use bk_ops::sign;
use bk_raw::RawName;
use std::alloc::Global;

/// The sign of this number in front, and what stands after it.
pub(crate) fn after_sign(tokens: &[Token], op: u16) -> Option<(&Token, &[Token])>
    ensures begins { MatchOption result (begins_with op tokens.now ≡ false) (λ p. begins_with op tokens.now ≡ true) }
    ensures found { MatchOption result (sign op tokens.now ≡ None) (λ p. sign op tokens.now ≡ Some (p.0.now, p.1.now)) }
    ensures shorter { IfSome result (λ p. length p.1.now < length tokens.now) }
{
    let (first, rest) = first_token(tokens)?;
    match &first.kind {
        TokenKind::Sign(found) if *found == op => Some((first, rest)),
        _ => None,
    }
}

/// The token in front, and what stands after it.
pub(crate) fn first_token(tokens: &[Token]) -> Option<(&Token, &[Token])>
    ensures { MatchOption result (tokens.now ≡ []) (λ p. tokens.now ≡ p.0.now ∷ p.1.now) }
{
    let [first, rest @ ..] = tokens else {
        return None;
    };
    Some((first, rest))
}

/// Whether the sign of this number stands in front.
pub(crate) fn begins(tokens: &[Token], op: u16) -> bool
    ensures { result ≡ begins_with op tokens.now }
{
    after_sign(tokens, op).is_some()
}

/// A name in front, and what stands after it.
pub(crate) fn declared(
    alloc: Global,
    tokens: &[Token],
) -> Result<Option<(RawName, &[Token])>, Memory>
    ensures found { IfOk result (λ r. MatchOption r (name tokens.now ≡ None)
        (λ p. name tokens.now ≡ Some (p.0, p.1.now))) }
    ensures shorter { IfOk result (λ r. IfSome r (λ p. length p.1.now < length tokens.now)) }
{
    let [first, rest @ ..] = tokens else {
        return Ok(None);
    };
    match &first.kind {
        TokenKind::Name(text) => {
            let at = first.start;
            let text = text.copy(alloc)?;
            Ok(Some((RawName { at, text }, rest)))
        }
        _ => Ok(None),
    }
}

/// `$n:` in front: where it stands, the number, and what stands after it.
pub(crate) fn bound_name(tokens: &[Token]) -> Option<(usize, u32, &[Token])>
    ensures found { MatchOption result (bound tokens.now ≡ None) (λ p. bound tokens.now ≡ Some ((p.0, p.1), p.2.now)) }
    ensures shorter { IfSome result (λ p. length p.2.now < length tokens.now) }
{
    let (first, rest) = first_token(tokens)?;
    let TokenKind::BoundName(number) = &first.kind else {
        return None;
    };
    let (_, rest) = after_sign(rest, sign::MEMBER)?;
    Some((first.start, *number, rest))
}

/// Names with commas between, and what stands after them.
#[tactic(auto, using(crate::proofs::Lists::names_begins, crate::proofs::Lists::names_goes_on, crate::proofs::Lists::names_ends, crate::proofs::Lists::names_fails))]
pub(crate) fn declared_names(
    alloc: Global,
    tokens: &[Token],
) -> Result<Option<(Vec<RawName>, &[Token])>, Memory>
    ensures found { IfOk result (λ r. MatchOption r (names tokens.now ≡ None)
        (λ p. names tokens.now ≡ Some (p.0.items, p.1.now))) }
    ensures shorter { IfOk result (λ r. IfSome r (λ p. length p.1.now < length tokens.now)) }
{
    let mut all = Vec::new(alloc);
    let mut rest = tokens;
    loop {
        let Some((name, after)) = declared(alloc, rest)? else {
            return Ok(None);
        };
        all.push(name)?;
        let Some((_, more)) = after_sign(after, sign::COMMA) else {
            return Ok(Some((all, after)));
        };
        rest = more;
    }
}

/// The names that a quantifier or a lambda binds, and what stands after them.
#[tactic(auto, using(crate::proofs::Binders::binder_none_inside, crate::proofs::Binders::binder_none_last, crate::proofs::Binders::binder_some, crate::proofs::Binders::binder_alone))]
pub(crate) fn bound_names(
    alloc: Global,
    tokens: &[Token],
) -> Result<Option<(Vec<RawName>, &[Token])>, Memory>
    ensures found { IfOk result (λ r. MatchOption r (binder tokens.now ≡ None)
        (λ p. binder tokens.now ≡ Some (p.0.items, p.1.now))) }
    ensures shorter { IfOk result (λ r. IfSome r (λ p. length p.1.now < length tokens.now)) }
{
    let Some((_, inside)) = after_sign(tokens, sign::OPEN_PAREN) else {
        return one_name(alloc, tokens);
    };
    let Some((names, rest)) = declared_names(alloc, inside)? else {
        return Ok(None);
    };
    let Some((_, rest)) = after_sign(rest, sign::CLOSE_PAREN) else {
        return Ok(None);
    };
    Ok(Some((names, rest)))
}

fn one_name(alloc: Global, tokens: &[Token]) -> Result<Option<(Vec<RawName>, &[Token])>, Memory>
    ensures found { IfOk result (λ r. MatchOption r (name tokens.now ≡ None)
        (λ p. next (name tokens.now) (λ x us. Some (x ∷ [], us)) ≡ Some (p.0.items, p.1.now))) }
    ensures shorter { IfOk result (λ r. IfSome r (λ p. length p.1.now < length tokens.now)) }
{
    let Some((name, rest)) = declared(alloc, tokens)? else {
        return Ok(None);
    };
    let mut names = Vec::new(alloc);
    names.push(name)?;
    Ok(Some((names, rest)))
}

/// Whether `$n` stands in front.
pub(crate) fn begins_bound_name(tokens: &[Token]) -> bool
    ensures { result ≡ begins_bound tokens.now }
{
    match tokens {
        [first, ..] => matches!(&first.kind, TokenKind::BoundName(_)),
        [] => false,
    }
}
