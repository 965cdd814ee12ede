// Places in sequents.

ghost use Rattle.std.specs.Prelude.{◌<◌, ◌≤◌, length, IfOk, IfSome, MatchOption};
ghost use Rattle.bk_raw.specs.Grammar.Pieces.{Digits, InRow};
ghost use Rattle.bk_raw.specs.Grammar.ScriptSpelling.{Place};
ghost use Rattle.bk_raw.specs.Codes.ScriptView.{written_place};
ghost use Rattle.bk_p_expr.specs.Fronts.{Longest, Nothing};

use crate::token::{after_name, digits};
use bk_form::Token;
use bk_io::Memory;
use bk_raw::RawPlace;
use std::alloc::Global;

/// `goal` or `hyp i` and the numbers of children in front, and what stands after them.
pub(crate) fn place(alloc: Global, tokens: &[Token]) -> Result<Option<(RawPlace, &[Token])>, Memory>
    ensures found { IfOk result (λ r. MatchOption r (Nothing Place tokens.now)
        (λ p. Longest Place tokens.now (written_place p.0) p.1.now)) }
    ensures shorter { IfOk result (λ r. IfSome r (λ p. length p.1.now < length tokens.now)) }
{
    if let Some(behind) = after_name(tokens, b"goal") {
        let (children, rest) = path(alloc, behind)?;
        return Ok(Some((RawPlace::Goal(children), rest)));
    }
    let Some(behind) = after_name(tokens, b"hyp") else {
        return Ok(None);
    };
    let Some((number, behind)) = digits(behind) else {
        return Ok(None);
    };
    let (children, rest) = path(alloc, behind)?;
    Ok(Some((RawPlace::Hyp(number, children), rest)))
}

/// The numbers in front, as many as there are, and what stands after them.
fn path(alloc: Global, tokens: &[Token]) -> Result<(Vec<u128>, &[Token]), Memory>
    ensures found { IfOk result (λ p. Longest (InRow Digits) tokens.now p.0.items p.1.now) }
    ensures shorter { IfOk result (λ p. length p.1.now ≤ length tokens.now) }
{
    let mut numbers = Vec::new(alloc);
    let mut rest = tokens;
    while let Some((number, after)) = digits(rest) {
        numbers.push(number)?;
        rest = after;
    }
    Ok((numbers, rest))
}
