//! The rules that leave nothing to prove. Each answers what the table says, none where the rule is no instance.

ghost use Rattle.std.specs.Prelude.{◌≡◌, IfOk, None as Nowhere};
ghost use Rattle.bk_form.specs.Formula.{btrue, bfalse, unary};
ghost use Rattle.bk_form.specs.declared.operator.UnOp.TheVariants.{Not as Negation};
ghost use Rattle.bk_seq.specs.Sequents.{sequent_of};
ghost use Rattle.bk_arith.specs.Same.{is_same};
ghost use Rattle.bk_arith.specs.Decision.{is_accepted};
ghost use Rattle.bk_kernel.specs.declared.rule.Rule.TheVariants.{Hyp, True, Same, Eval, False, Absurd};
ghost use Rattle.bk_kernel.specs.Branches.{closed_if};
ghost use Rattle.bk_kernel.specs.Rules.{listed_facts, certified, branches};
ghost use Rattle.bk_kernel.specs.Held.{held, list_in};

use crate::branch::Branch;
use crate::deciding::{decided, is_yes};
use crate::obvious::same;
use crate::views::{operand, sides};
use bk_arith::{ArithFault, linear};
use bk_form::{BinOp, Form, UnOp, VarTable, View};
use bk_io::Memory;
use bk_lin::Line;
use bk_seq::{Sequent, numbered};
use std::alloc::Global;

/// The goal is that hypothesis.
pub(crate) fn by_hypothesis(
    alloc: Global,
    types: &VarTable,
    sequent: &Sequent,
    number: u32,
) -> Result<Option<Vec<Branch>>, Memory>
    ensures { IfOk result (λ o. held o ≡ branches types.now (sequent_of sequent.now) (Hyp number)) }
{
    let _types = types;
    let Some(hypothesis) = numbered(&sequent.hyps, number) else {
        return Ok(None);
    };
    Ok(closed_if(alloc, same(hypothesis, &sequent.goal)))
}

/// The goal is `btrue`.
pub(crate) fn by_truth(
    alloc: Global,
    types: &VarTable,
    sequent: &Sequent,
) -> Result<Option<Vec<Branch>>, Memory>
    ensures { IfOk result (λ o. held o ≡ branches types.now (sequent_of sequent.now) True) }
{
    let _types = types;
    Ok(closed_if(alloc, is_btrue(&sequent.goal)))
}

/// The goal is `E = E`.
pub(crate) fn by_sameness(
    alloc: Global,
    types: &VarTable,
    sequent: &Sequent,
) -> Result<Option<Vec<Branch>>, Memory>
    ensures { IfOk result (λ o. held o ≡ branches types.now (sequent_of sequent.now) Same) }
{
    let _types = types;
    let Some((left, right)) = sides(BinOp::Eq, &sequent.goal) else {
        return Ok(None);
    };
    Ok(closed_if(alloc, same(left, right)))
}

/// The goal is a true closed comparison or membership.
pub(crate) fn by_decision(
    alloc: Global,
    types: &VarTable,
    sequent: &Sequent,
) -> Result<Option<Vec<Branch>>, Memory>
    ensures { IfOk result (λ o. held o ≡ branches types.now (sequent_of sequent.now) (Eval Nowhere)) }
{
    let _types = types;
    Ok(closed_if(alloc, is_yes(decided(&sequent.goal))))
}

/// That hypothesis is `bfalse`.
pub(crate) fn by_falsity(
    alloc: Global,
    types: &VarTable,
    sequent: &Sequent,
    number: u32,
) -> Result<Option<Vec<Branch>>, Memory>
    ensures { IfOk result (λ o. held o ≡ branches types.now (sequent_of sequent.now) (False number)) }
{
    let _types = types;
    let Some(hypothesis) = numbered(&sequent.hyps, number) else {
        return Ok(None);
    };
    Ok(closed_if(alloc, is_bfalse(hypothesis)))
}

/// The second of the two hypotheses is `not` of the first.
pub(crate) fn by_absurdity(
    alloc: Global,
    types: &VarTable,
    sequent: &Sequent,
    number: u32,
    denial: u32,
) -> Result<Option<Vec<Branch>>, Memory>
    ensures { IfOk result (λ o. held o ≡ branches types.now (sequent_of sequent.now) (Absurd number denial)) }
{
    let _types = types;
    let Some(hypothesis) = numbered(&sequent.hyps, number) else {
        return Ok(None);
    };
    let Some(other) = numbered(&sequent.hyps, denial) else {
        return Ok(None);
    };
    Ok(closed_if(alloc, is_denial(other, hypothesis)))
}

/// The goal follows from the listed hypotheses, as the certificate shows.
pub(crate) fn by_arithmetic(
    alloc: Global,
    sequent: &Sequent,
    facts: &[u32],
    lines: &[Line],
) -> Result<Option<Vec<Branch>>, Memory>
    ensures { IfOk result (λ o. held o ≡ certified (sequent_of sequent.now) facts.now lines.now) }
{
    let Some(hyps) = listed(alloc, &sequent.hyps, facts)? else {
        return Ok(None);
    };
    Ok(closed_if(alloc, is_accepted(alloc, &hyps, &sequent.goal, lines)?))
}

/// Nothing is left, where the test passes.
pub(crate) fn closed_if(alloc: Global, test: bool) -> Option<Vec<Branch>>
    ensures { held result ≡ closed_if test }
{
    if !test {
        return None;
    }
    Some(Vec::new(alloc))
}

fn is_btrue(form: &Form) -> bool
    ensures { result ≡ is_same form.now btrue }
{
    match form.view() {
        View::True => true,
        _ => false,
    }
}

fn is_bfalse(form: &Form) -> bool
    ensures { result ≡ is_same form.now bfalse }
{
    match form.view() {
        View::False => true,
        _ => false,
    }
}

// Whether the first is `not` of the second.
fn is_denial(form: &Form, other: &Form) -> bool
    ensures { result ≡ is_same form.now (unary Negation other.now) }
{
    let Some(inner) = operand(UnOp::Not, form) else {
        return false;
    };
    same(inner, other)
}

// The hypotheses of these numbers, in that order; None where one is not there.
fn listed(alloc: Global, hyps: &[Form], numbers: &[u32]) -> Result<Option<Vec<Form>>, Memory>
    ensures { IfOk result (λ o. list_in o ≡ listed_facts hyps.now numbers.now) }
{
    let mut found = Vec::new(alloc);
    for number in numbers {
        let Some(hypothesis) = numbered(hyps, *number) else {
            return Ok(None);
        };
        found.push(hypothesis.copy(alloc)?)?;
    }
    Ok(Some(found))
}

// Whether the certificate is accepted.
fn is_accepted(alloc: Global, hyps: &[Form], goal: &Form, lines: &[Line]) -> Result<bool, Memory>
    ensures { IfOk result (λ b. b ≡ is_accepted hyps.now goal.now lines.now) }
{
    match linear(alloc, hyps, goal, lines) {
        Ok(()) => Ok(true),
        Err(ArithFault::NotLinear(_)) => Ok(false),
        Err(ArithFault::Cert(_)) => Ok(false),
        Err(ArithFault::TooWide) => Ok(false),
        Err(ArithFault::Cases) => Ok(false),
        Err(ArithFault::Memory) => Err(Memory),
    }
}
