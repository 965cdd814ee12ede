// Substitutions that begin with the names that they write.

ghost use Rattle.std.specs.Prelude.{false, ◌≡◌, ◌≢◌, ◌<◌, [], ◌∷◌, length, IfOk, IfSome, MatchOption};
ghost use Rattle.bk_p_expr.specs.Fronts.{Nothing};
ghost use Rattle.bk_p_sub.specs.Found.{BeginsWithName, Enclosed, FoundEnclosed, Reads};

use crate::front::{after_sign, names, start_of, terms};
use crate::statement::Statement;
use crate::term::Term;
use bk_form::Token;
use bk_io::Memory;
use bk_ops::sign;
use bk_raw::RawName;
use std::alloc::Global;

/// A substitution that writes names; no call.
pub(crate) fn target(
    alloc: Global,
    tokens: &[Token],
) -> Result<Option<(Statement, &[Token])>, Memory>
    requires { BeginsWithName tokens.now }
    ensures found { Reads false 2 tokens.now result }
    ensures shorter { IfOk result (λ r. IfSome r (λ p. length p.1.now < length tokens.now)) }
{
    let at = start_of(tokens);
    let Some((names, rest)) = names(alloc, tokens)? else {
        return Ok(None);
    };
    if let Some(behind) = after_sign(rest, sign::ASSIGN) {
        let Some((values, rest)) = terms(alloc, behind)? else {
            return Ok(None);
        };
        return Ok(Some((Statement::assign(alloc, at, names, values)?, rest)));
    }
    if let Some(behind) = after_sign(rest, sign::MEMBER) {
        let Some((predicate, rest)) = enclosed(alloc, behind)? else {
            return Ok(None);
        };
        return Ok(Some((Statement::such(alloc, at, names, predicate)?, rest)));
    }
    let Some(name) = only(names) else {
        return Ok(None);
    };
    if let Some(behind) = after_sign(rest, sign::BECOMES_MEMBER) {
        let Some((set, rest)) = Term::front(alloc, behind)? else {
            return Ok(None);
        };
        return Ok(Some((Statement::member(alloc, at, name, set)?, rest)));
    }
    let Some((place, behind)) = enclosed(alloc, rest)? else {
        return Ok(None);
    };
    let Some(behind) = after_sign(behind, sign::ASSIGN) else {
        return Ok(None);
    };
    let Some((value, rest)) = Term::front(alloc, behind)? else {
        return Ok(None);
    };
    Ok(Some((Statement::assign_at(alloc, at, name, place, value)?, rest)))
}

/// The name, where it is the only one.
fn only(mut names: Vec<RawName>) -> Option<RawName>
    ensures { MatchOption result (length names.items ≢ 1) (λ x. names.items ≡ x ∷ []) }
{
    if names.len() != 1 {
        return None;
    }
    names.pop()
}

/// A term in parentheses.
fn enclosed(alloc: Global, tokens: &[Token]) -> Result<Option<(Term, &[Token])>, Memory>
    ensures found { IfOk result (λ r. MatchOption r (Nothing Enclosed tokens.now)
        (λ p. FoundEnclosed tokens.now p.0 p.1.now)) }
    ensures shorter { IfOk result (λ r. IfSome r (λ p. length p.1.now < length tokens.now)) }
{
    let Some(inside) = after_sign(tokens, sign::OPEN_PAREN) else {
        return Ok(None);
    };
    let Some((term, behind)) = Term::front(alloc, inside)? else {
        return Ok(None);
    };
    let Some(rest) = after_sign(behind, sign::CLOSE_PAREN) else {
        return Ok(None);
    };
    Ok(Some((term, rest)))
}
