// Substitutions, read from tokens.

ghost use Rattle.std.specs.Prelude.{◌<◌, length, IfOk, IfErr, IfSome};
ghost use Rattle.bk_raw.specs.Errors.Limits.{IsLowSub};
ghost use Rattle.bk_p_expr.specs.Depth.{IsShallowFrom};
ghost use Rattle.bk_p_sub.specs.Faults.{IsLongestFrom, IsSubFault};
ghost use Rattle.bk_p_sub.specs.Found.{Reads};

use crate::statement::Statement;
use crate::substitutions::{parallel, sequence};
use bk_form::Token;
use bk_io::Memory;
use bk_p_expr::SynFault;
use bk_raw::{RawSub, too_deep};
use std::alloc::Global;

/// The longest substitution that is written from the token at `at` on, and the place of the token after it.
///
/// The text of a larger thing may go on after it: `skip END` read from 0 is `skip` and 1. The printed additions of terms
/// are read too, and calls of operations: `x :=` read from 0 is the call `x` and 1.
pub fn substitution(alloc: Global, tokens: &[Token], at: usize) -> Result<(RawSub, usize), SynFault>
    ensures ok { IfOk result (λ read. IsLongestFrom tokens.now at read.1 read.0) }
    ensures low { IfOk result (λ read. IsLowSub read.0) }
    ensures shallow { IfOk result (λ read. IsShallowFrom tokens.now at) }
    ensures fault { IfErr result (IsSubFault tokens.now at) }
{
    let Some(rest) = tokens.get(at..) else {
        return Err(SynFault::At(at));
    };
    if let Some(place) = too_deep(rest) {
        return Err(SynFault::Depth(at + place));
    }
    match sequence(alloc, rest, true)? {
        Some((statement, after)) => match statement {
            Statement::Built(sub, _) => Ok((Box::into_inner(sub), tokens.len() - after.len())),
            Statement::High => Err(SynFault::High),
        },
        None => Err(SynFault::At(at)),
    }
}

/// The longest substitution in front of the tokens, and what stands after it, for readers of larger things; `calls` says
/// whether operations may be called in it. It does not look at how much is open: such a reader asks `too_deep` of all its
/// tokens first, and once.
pub fn front_substitution(
    alloc: Global,
    tokens: &[Token],
    calls: bool,
) -> Result<Option<(Statement, &[Token])>, Memory>
    ensures found { Reads calls 0 tokens.now result }
    ensures shorter { IfOk result (λ r. IfSome r (λ p. length p.1.now < length tokens.now)) }
{
    sequence(alloc, tokens, calls)
}

/// The same where no semicolon may join substitutions but in blocks, as in the body of an operation.
pub fn front_body(
    alloc: Global,
    tokens: &[Token],
    calls: bool,
) -> Result<Option<(Statement, &[Token])>, Memory>
    ensures found { Reads calls 1 tokens.now result }
    ensures shorter { IfOk result (λ r. IfSome r (λ p. length p.1.now < length tokens.now)) }
{
    parallel(alloc, tokens, calls)
}
