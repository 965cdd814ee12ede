// Laws with the terms that they take.

ghost use Rattle.std.specs.Prelude.{◌<◌, ◌≤◌, List, length, IfOk, IfSome, MatchOption};
ghost use Rattle.bk_raw.specs.Trees.RawTree.{RawTree, trees_of};
ghost use Rattle.bk_raw.specs.Grammar.ScriptSpelling.{Picked};
ghost use Rattle.bk_p_expr.specs.Fronts.{Longest, Nothing};
ghost use Rattle.bk_p_expr.specs.Pieces.{IsTerms};
ghost use Rattle.bk_p_proof.specs.Kinds.{Lawful};

use crate::terms::terms;
use crate::token::{after_sign, first_token, name_of};
use bk_form::Token;
use bk_io::{Memory, Text};
use bk_ops::sign;
use bk_p_expr::Terms;
use std::alloc::Global;

/// The name of a law and its terms in front, and what stands after them.
pub(crate) fn law(
    alloc: Global,
    tokens: &[Token],
) -> Result<Option<(Text, Terms, &[Token])>, Memory>
    ensures found { IfOk result (λ r. MatchOption r (Nothing Lawful tokens.now)
        (λ p. (ts : List RawTree) × Longest Lawful tokens.now (p.0, ts) p.2.now × IsTerms (trees_of ts) p.1)) }
    ensures shorter { IfOk result (λ r. IfSome r (λ p. length p.2.now < length tokens.now)) }
{
    let Some((first, behind)) = first_token(tokens) else {
        return Ok(None);
    };
    let Some(name) = name_of(alloc, &first.kind)? else {
        return Ok(None);
    };
    let (terms, rest) = picked(alloc, behind)?;
    Ok(Some((name, terms, rest)))
}

/// Terms in parentheses, and what stands after them; none, where no such are in front.
fn picked(alloc: Global, tokens: &[Token]) -> Result<(Terms, &[Token]), Memory>
    ensures found { IfOk result (λ p. (ts : List RawTree) × Longest Picked tokens.now ts p.1.now ×
        IsTerms (trees_of ts) p.0) }
    ensures shorter { IfOk result (λ p. length p.1.now ≤ length tokens.now) }
{
    let none = Terms::Built(Vec::new(alloc), 0);
    let Some(inside) = after_sign(tokens, sign::OPEN_PAREN) else {
        return Ok((none, tokens));
    };
    if let Some(rest) = after_sign(inside, sign::CLOSE_PAREN) {
        return Ok((none, rest));
    }
    let Some((all, behind)) = terms(alloc, inside)? else {
        return Ok((none, tokens));
    };
    let Some(rest) = after_sign(behind, sign::CLOSE_PAREN) else {
        return Ok((none, tokens));
    };
    Ok((all, rest))
}
