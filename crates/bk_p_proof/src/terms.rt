// Terms with commas between.

ghost use Rattle.std.specs.Prelude.{◌<◌, List, length, IfOk, IfSome, MatchOption};
ghost use Rattle.bk_raw.specs.Trees.RawTree.{RawTree, trees_of};
ghost use Rattle.bk_p_expr.specs.Fronts.{Longest, Nothing};
ghost use Rattle.bk_p_expr.specs.Pieces.{IsTerms};
ghost use Rattle.bk_p_proof.specs.Kinds.{SomeTerms};

use crate::token::after_sign;
use bk_form::Token;
use bk_io::Memory;
use bk_ops::sign;
use bk_p_expr::{Terms, front_term};
use std::alloc::Global;

/// Terms with commas between, and what stands after them. Where no term stands after a comma, they end before it.
pub(crate) fn terms(alloc: Global, tokens: &[Token]) -> Result<Option<(Terms, &[Token])>, Memory>
    ensures found { IfOk result (λ r. MatchOption r (Nothing SomeTerms tokens.now)
        (λ p. (ts : List RawTree) × Longest SomeTerms tokens.now ts p.1.now × IsTerms (trees_of ts) p.0)) }
    ensures shorter { IfOk result (λ r. IfSome r (λ p. length p.1.now < length tokens.now)) }
{
    let Some((first, after)) = front_term(alloc, tokens)? else {
        return Ok(None);
    };
    let none = Terms::Built(Vec::new(alloc), 0);
    let mut all = none.and(alloc, first)?;
    let mut rest = after;
    while let Some(behind) = after_sign(rest, sign::COMMA) {
        let Some((term, after)) = front_term(alloc, behind)? else {
            return Ok(Some((all, rest)));
        };
        all = all.and(alloc, term)?;
        rest = after;
    }
    Ok(Some((all, rest)))
}
