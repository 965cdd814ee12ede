//! The rules of the connectives. Each answers what the table says, none where the rule is no instance.

ghost use Rattle.std.specs.Prelude.{◌≡◌, Err, IfOk};
ghost use Rattle.bk_bind.specs.declared.error.BindFault.TheVariants.{TooLarge};
ghost use Rattle.bk_seq.specs.Sequents.{sequent_of};
ghost use Rattle.bk_kernel.specs.declared.rule.Rule.TheVariants.{And, Iff, Imp, Not, Left, Right, Or, Contra, Split, Cases, Apply, Cut, Case};
ghost use Rattle.bk_kernel.specs.Rules.{branches};
ghost use Rattle.bk_kernel.specs.Held.{held, IsTooLarge};

use crate::branch::{Branch, goal, one, refuting, supposing, supposing_both, two};
use crate::views::{operand, sides};
use bk_bind::{BindFault, binary, unary};
use bk_form::{BinOp, Form, UnOp, VarTable};
use bk_io::Memory;
use bk_seq::{Sequent, numbered};
use std::alloc::Global;

/// The goal `P & Q`: the goals `P` and `Q`.
pub(crate) fn both_goals(
    alloc: Global,
    types: &VarTable,
    sequent: &Sequent,
) -> Result<Option<Vec<Branch>>, Memory>
    ensures { IfOk result (λ o. held o ≡ branches types.now (sequent_of sequent.now) And) }
{
    let _types = types;
    let Some((left, right)) = sides(BinOp::And, &sequent.goal) else {
        return Ok(None);
    };
    let first = goal(alloc, left)?;
    let second = goal(alloc, right)?;
    Ok(Some(two(alloc, first, second)?))
}

/// The goal `P <=> Q`: the goals `P => Q` and `Q => P`.
#[tactic(auto, using(crate::proofs::LargeParts::parts_within))]
pub(crate) fn both_ways(
    alloc: Global,
    types: &VarTable,
    sequent: &Sequent,
) -> Result<Option<Vec<Branch>>, BindFault>
    ensures value { IfOk result (λ o. held o ≡ branches types.now (sequent_of sequent.now) Iff) }
    ensures too_large { result ≡ Err TooLarge → IsTooLarge (branches types.now (sequent_of sequent.now) Iff) }
{
    let _types = types;
    let Some((left, right)) = sides(BinOp::Iff, &sequent.goal) else {
        return Ok(None);
    };
    let there = binary(alloc, BinOp::Imp, left.copy(alloc)?, right.copy(alloc)?)?;
    let back = binary(alloc, BinOp::Imp, right.copy(alloc)?, left.copy(alloc)?)?;
    let first = goal(alloc, &there)?;
    let second = goal(alloc, &back)?;
    Ok(Some(two(alloc, first, second)?))
}

/// The goal `P => Q`: `P` is a new hypothesis, and `Q` the goal.
pub(crate) fn by_supposing(
    alloc: Global,
    types: &VarTable,
    sequent: &Sequent,
) -> Result<Option<Vec<Branch>>, Memory>
    ensures { IfOk result (λ o. held o ≡ branches types.now (sequent_of sequent.now) Imp) }
{
    let _types = types;
    let Some((left, right)) = sides(BinOp::Imp, &sequent.goal) else {
        return Ok(None);
    };
    let only = supposing(alloc, left.copy(alloc)?, right)?;
    Ok(Some(one(alloc, only)?))
}

/// The goal `not(P)`: `P` is a new hypothesis, and `bfalse` the goal.
pub(crate) fn by_refutation(
    alloc: Global,
    types: &VarTable,
    sequent: &Sequent,
) -> Result<Option<Vec<Branch>>, Memory>
    ensures { IfOk result (λ o. held o ≡ branches types.now (sequent_of sequent.now) Not) }
{
    let _types = types;
    let Some(denied) = operand(UnOp::Not, &sequent.goal) else {
        return Ok(None);
    };
    let only = refuting(alloc, denied.copy(alloc)?)?;
    Ok(Some(one(alloc, only)?))
}

/// The goal `P or Q`: the goal `P`.
pub(crate) fn left_side(
    alloc: Global,
    types: &VarTable,
    sequent: &Sequent,
) -> Result<Option<Vec<Branch>>, Memory>
    ensures { IfOk result (λ o. held o ≡ branches types.now (sequent_of sequent.now) Left) }
{
    let _types = types;
    let Some((left, _)) = sides(BinOp::Or, &sequent.goal) else {
        return Ok(None);
    };
    let only = goal(alloc, left)?;
    Ok(Some(one(alloc, only)?))
}

/// The goal `P or Q`: the goal `Q`.
pub(crate) fn right_side(
    alloc: Global,
    types: &VarTable,
    sequent: &Sequent,
) -> Result<Option<Vec<Branch>>, Memory>
    ensures { IfOk result (λ o. held o ≡ branches types.now (sequent_of sequent.now) Right) }
{
    let _types = types;
    let Some((_, right)) = sides(BinOp::Or, &sequent.goal) else {
        return Ok(None);
    };
    let only = goal(alloc, right)?;
    Ok(Some(one(alloc, only)?))
}

/// The goal `P or Q`: `not(P)` is a new hypothesis, and `Q` the goal.
#[tactic(auto, using(crate::proofs::LargeParts::parts_within))]
pub(crate) fn other_side(
    alloc: Global,
    types: &VarTable,
    sequent: &Sequent,
) -> Result<Option<Vec<Branch>>, BindFault>
    ensures value { IfOk result (λ o. held o ≡ branches types.now (sequent_of sequent.now) Or) }
    ensures too_large { result ≡ Err TooLarge → IsTooLarge (branches types.now (sequent_of sequent.now) Or) }
{
    let _types = types;
    let Some((left, right)) = sides(BinOp::Or, &sequent.goal) else {
        return Ok(None);
    };
    let denial = unary(alloc, UnOp::Not, left.copy(alloc)?)?;
    let only = supposing(alloc, denial, right)?;
    Ok(Some(one(alloc, only)?))
}

/// Any goal: its denial is a new hypothesis, and `bfalse` the goal.
#[tactic(auto, using(crate::proofs::LargeParts::parts_within))]
pub(crate) fn by_denial(
    alloc: Global,
    types: &VarTable,
    sequent: &Sequent,
) -> Result<Option<Vec<Branch>>, BindFault>
    ensures value { IfOk result (λ o. held o ≡ branches types.now (sequent_of sequent.now) Contra) }
    ensures too_large { result ≡ Err TooLarge → IsTooLarge (branches types.now (sequent_of sequent.now) Contra) }
{
    let _types = types;
    let denial = unary(alloc, UnOp::Not, sequent.goal.copy(alloc)?)?;
    let only = refuting(alloc, denial)?;
    Ok(Some(one(alloc, only)?))
}

/// That hypothesis is `P & Q`: both are new hypotheses.
pub(crate) fn parts_of_hypothesis(
    alloc: Global,
    types: &VarTable,
    sequent: &Sequent,
    number: u32,
) -> Result<Option<Vec<Branch>>, Memory>
    ensures { IfOk result (λ o. held o ≡ branches types.now (sequent_of sequent.now) (Split number)) }
{
    let _types = types;
    let Some(hypothesis) = numbered(&sequent.hyps, number) else {
        return Ok(None);
    };
    let Some((left, right)) = sides(BinOp::And, hypothesis) else {
        return Ok(None);
    };
    let only = supposing_both(alloc, left.copy(alloc)?, right.copy(alloc)?, &sequent.goal)?;
    Ok(Some(one(alloc, only)?))
}

/// That hypothesis is `P or Q`: one sequent with each as a new hypothesis.
pub(crate) fn either_side(
    alloc: Global,
    types: &VarTable,
    sequent: &Sequent,
    number: u32,
) -> Result<Option<Vec<Branch>>, Memory>
    ensures { IfOk result (λ o. held o ≡ branches types.now (sequent_of sequent.now) (Cases number)) }
{
    let _types = types;
    let Some(hypothesis) = numbered(&sequent.hyps, number) else {
        return Ok(None);
    };
    let Some((left, right)) = sides(BinOp::Or, hypothesis) else {
        return Ok(None);
    };
    let first = supposing(alloc, left.copy(alloc)?, &sequent.goal)?;
    let second = supposing(alloc, right.copy(alloc)?, &sequent.goal)?;
    Ok(Some(two(alloc, first, second)?))
}

/// That hypothesis is `P => Q`: the goal `P`, and then `Q` as a new hypothesis.
pub(crate) fn by_applying(
    alloc: Global,
    types: &VarTable,
    sequent: &Sequent,
    number: u32,
) -> Result<Option<Vec<Branch>>, Memory>
    ensures { IfOk result (λ o. held o ≡ branches types.now (sequent_of sequent.now) (Apply number)) }
{
    let _types = types;
    let Some(hypothesis) = numbered(&sequent.hyps, number) else {
        return Ok(None);
    };
    let Some((left, right)) = sides(BinOp::Imp, hypothesis) else {
        return Ok(None);
    };
    let first = goal(alloc, left)?;
    let second = supposing(alloc, right.copy(alloc)?, &sequent.goal)?;
    Ok(Some(two(alloc, first, second)?))
}

/// The goal `P`, and then `P` as a new hypothesis.
pub(crate) fn by_way_of(
    alloc: Global,
    types: &VarTable,
    sequent: &Sequent,
    form: &Form,
) -> Result<Option<Vec<Branch>>, Memory>
    ensures { IfOk result (λ o. held o ≡ branches types.now (sequent_of sequent.now) (Cut form.now)) }
{
    let _types = types;
    let first = goal(alloc, form)?;
    let second = supposing(alloc, form.copy(alloc)?, &sequent.goal)?;
    Ok(Some(two(alloc, first, second)?))
}

/// `P` as a new hypothesis, and then `not(P)`.
#[tactic(auto, using(crate::proofs::LargeParts::parts_within))]
pub(crate) fn in_both_cases(
    alloc: Global,
    types: &VarTable,
    sequent: &Sequent,
    form: &Form,
) -> Result<Option<Vec<Branch>>, BindFault>
    ensures value { IfOk result (λ o. held o ≡ branches types.now (sequent_of sequent.now) (Case form.now)) }
    ensures too_large { result ≡ Err TooLarge → IsTooLarge (branches types.now (sequent_of sequent.now) (Case form.now)) }
{
    let _types = types;
    let denial = unary(alloc, UnOp::Not, form.copy(alloc)?)?;
    let first = supposing(alloc, form.copy(alloc)?, &sequent.goal)?;
    let second = supposing(alloc, denial, &sequent.goal)?;
    Ok(Some(two(alloc, first, second)?))
}
