// Calls of operations.

ghost use Rattle.std.specs.Prelude.{◌<◌, length, IfOk, IfSome, MatchOption};
ghost use Rattle.bk_p_expr.specs.Fronts.{Nothing};
ghost use Rattle.bk_p_sub.specs.Found.{Application, Arguments, FoundApplication, FoundArguments, ReadsCall};
ghost use Rattle.bk_p_sub.specs.Found.{ReadsCallWithOutputs};

use crate::front::{after_sign, declared, names, start_of, terms};
use crate::statement::Statement;
use bk_form::Token;
use bk_io::Memory;
use bk_ops::sign;
use bk_p_expr::Terms;
use bk_raw::RawName;
use std::alloc::Global;

/// A call in front: `x, y <-- op(e, f)`, `x, y <-- op`, `op(e, f)` or `op`.
pub(crate) fn call(alloc: Global, tokens: &[Token]) -> Result<Option<(Statement, &[Token])>, Memory>
    ensures found { ReadsCall tokens.now result }
    ensures shorter { IfOk result (λ r. IfSome r (λ p. length p.1.now < length tokens.now)) }
{
    if let Some((statement, rest)) = call_with_outputs(alloc, tokens)? {
        return Ok(Some((statement, rest)));
    }
    let at = start_of(tokens);
    let Some((operation, arguments, rest)) = application(alloc, tokens)? else {
        return Ok(None);
    };
    let none = Vec::new(alloc);
    let statement = Statement::call(alloc, at, none, operation, arguments)?;
    Ok(Some((statement, rest)))
}

/// A call with outputs in front.
fn call_with_outputs(
    alloc: Global,
    tokens: &[Token],
) -> Result<Option<(Statement, &[Token])>, Memory>
    ensures found { ReadsCallWithOutputs tokens.now result }
    ensures shorter { IfOk result (λ r. IfSome r (λ p. length p.1.now < length tokens.now)) }
{
    let at = start_of(tokens);
    let Some((outputs, behind)) = names(alloc, tokens)? else {
        return Ok(None);
    };
    let Some(inside) = after_sign(behind, sign::OUTPUTS) else {
        return Ok(None);
    };
    let Some((operation, arguments, rest)) = application(alloc, inside)? else {
        return Ok(None);
    };
    let statement = Statement::call(alloc, at, outputs, operation, arguments)?;
    Ok(Some((statement, rest)))
}

/// An operation in front, and its arguments.
fn application(
    alloc: Global,
    tokens: &[Token],
) -> Result<Option<(RawName, Terms, &[Token])>, Memory>
    ensures found { IfOk result (λ r. MatchOption r (Nothing Application tokens.now)
        (λ p. FoundApplication tokens.now p.0 p.1 p.2.now)) }
    ensures shorter { IfOk result (λ r. IfSome r (λ p. length p.2.now < length tokens.now)) }
{
    let Some((operation, behind)) = declared(alloc, tokens)? else {
        return Ok(None);
    };
    let Some((arguments, rest)) = arguments(alloc, behind)? else {
        let none = Terms::Built(Vec::new(alloc), 0);
        return Ok(Some((operation, none, behind)));
    };
    Ok(Some((operation, arguments, rest)))
}

/// Terms in parentheses.
fn arguments(alloc: Global, tokens: &[Token]) -> Result<Option<(Terms, &[Token])>, Memory>
    ensures found { IfOk result (λ r. MatchOption r (Nothing Arguments tokens.now)
        (λ p. FoundArguments tokens.now p.0 p.1.now)) }
    ensures shorter { IfOk result (λ r. IfSome r (λ p. length p.1.now < length tokens.now)) }
{
    let Some(inside) = after_sign(tokens, sign::OPEN_PAREN) else {
        return Ok(None);
    };
    let Some((terms, behind)) = terms(alloc, inside)? else {
        return Ok(None);
    };
    let Some(rest) = after_sign(behind, sign::CLOSE_PAREN) else {
        return Ok(None);
    };
    Ok(Some((terms, rest)))
}
