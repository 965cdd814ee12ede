//! Other formulas at places of a sequent.

ghost use Rattle.std.specs.Prelude.{◌≡◌, Err, IfOk, IsSome, map};
ghost use Rattle.bk_bind.specs.Limits.{IsWithinLimits};
ghost use Rattle.bk_bind.specs.declared.error.BindFault.TheVariants.{TooLarge};
ghost use Rattle.bk_laws_log.specs.Rows.{instance_of};
ghost use Rattle.bk_seq.specs.Sequents.{sequent_of, IsWithin};
ghost use Rattle.std.specs.Option.{option_and_then};
ghost use Rattle.bk_seq.specs.Paths.{sub_at, put_at};
ghost use Rattle.bk_kernel.specs.Branches.{when};
ghost use Rattle.bk_kernel.specs.Rewriting.{stands_for, part_rewritten, goals_then, goal_changed, hypothesis_changed, rewritten};
ghost use Rattle.bk_kernel.specs.Code.{meant_by};
ghost use Rattle.bk_kernel.specs.Held.{branch_of, held, instance_in, replaced_in, IsTooLarge, HasLargePart};

use crate::branch::{Branch, goal, supposing};
use crate::instances::{Change, instance_for};
use crate::obvious::same;
use crate::roles::have_one_role;
use crate::rule::Place;
use bk_bind::{BindFault, LawInstance};
use bk_form::{Form, VarTable};
use bk_io::Memory;
use bk_seq::{Sequent, at, numbered, put};
use std::alloc::Global;

/// What comes of a sequent where the formula at a place changes: one sequent for each side of the law, then one with the changed
/// goal, or with the changed hypothesis as one more. None where nothing may come for what stands there.
pub(crate) fn rewritten(
    alloc: Global,
    types: &VarTable,
    sequent: &Sequent,
    change: &Change<'_>,
    place: &Place,
) -> Result<Option<Vec<Branch>>, BindFault>
    requires { IsWithin (sequent_of sequent.now) }
    ensures value { IfOk result (λ o. held o ≡
        rewritten types.now (sequent_of sequent.now) (meant_by change.now) place.now) }
    ensures too_large { result ≡ Err TooLarge →
        IsTooLarge (rewritten types.now (sequent_of sequent.now) (meant_by change.now) place.now) }
{
    match place {
        Place::Goal(path) => in_goal(alloc, types, sequent, change, path),
        Place::Hyp(number, path) => {
            let Some(hypothesis) = numbered(&sequent.hyps, *number) else {
                return Ok(None);
            };
            in_hypothesis(alloc, types, sequent, change, hypothesis, path)
        }
    }
}

fn in_goal(
    alloc: Global,
    types: &VarTable,
    sequent: &Sequent,
    change: &Change<'_>,
    path: &[u32],
) -> Result<Option<Vec<Branch>>, BindFault>
    requires { IsWithinLimits sequent.now.goal }
    ensures value { IfOk result (λ o. held o ≡ goal_changed (part_rewritten types.now
        sequent.now.hyps.items (meant_by change.now) sequent.now.goal path.now)) }
    ensures too_large { result ≡ Err TooLarge → IsTooLarge (goal_changed (part_rewritten types.now
        sequent.now.hyps.items (meant_by change.now) sequent.now.goal path.now)) }
{
    match part_rewritten(alloc, types, &sequent.hyps, change, &sequent.goal, path) {
        Ok(found) => Ok(goal_changed(alloc, found)?),
        Err(BindFault::TooLarge) => Err(BindFault::TooLarge),
        Err(BindFault::Memory) => Err(BindFault::Memory),
    }
}

fn in_hypothesis(
    alloc: Global,
    types: &VarTable,
    sequent: &Sequent,
    change: &Change<'_>,
    hypothesis: &Form,
    path: &[u32],
) -> Result<Option<Vec<Branch>>, BindFault>
    requires { IsWithinLimits hypothesis.now }
    ensures value { IfOk result (λ o. held o ≡ hypothesis_changed sequent.now.goal (part_rewritten types.now
        sequent.now.hyps.items (meant_by change.now) hypothesis.now path.now)) }
    ensures too_large { result ≡ Err TooLarge → IsTooLarge (hypothesis_changed sequent.now.goal (part_rewritten types.now
        sequent.now.hyps.items (meant_by change.now) hypothesis.now path.now)) }
{
    match part_rewritten(alloc, types, &sequent.hyps, change, hypothesis, path) {
        Ok(found) => Ok(hypothesis_changed(alloc, &sequent.goal, found)?),
        Err(BindFault::TooLarge) => Err(BindFault::TooLarge),
        Err(BindFault::Memory) => Err(BindFault::Memory),
    }
}

// The sides as goals, then the changed goal.
fn goal_changed(
    alloc: Global,
    found: Option<(Vec<Form>, Form)>,
) -> Result<Option<Vec<Branch>>, Memory>
    ensures { IfOk result (λ o. held o ≡ goal_changed (replaced_in found)) }
{
    let Some((sides, new)) = found else {
        return Ok(None);
    };
    let last = goal(alloc, &new)?;
    Ok(Some(goals_then(alloc, &sides, last)?))
}

// The sides as goals, then the same goal with the changed hypothesis as one more.
fn hypothesis_changed(
    alloc: Global,
    unchanged: &Form,
    found: Option<(Vec<Form>, Form)>,
) -> Result<Option<Vec<Branch>>, Memory>
    ensures { IfOk result (λ o. held o ≡ hypothesis_changed unchanged.now (replaced_in found)) }
{
    let Some((sides, new)) = found else {
        return Ok(None);
    };
    let last = supposing(alloc, new, unchanged)?;
    Ok(Some(goals_then(alloc, &sides, last)?))
}

// The sides of the law at what stands at the path, and the formula with the law's right side there.
fn part_rewritten(
    alloc: Global,
    types: &VarTable,
    hyps: &[Form],
    change: &Change<'_>,
    form: &Form,
    path: &[u32],
) -> Result<Option<(Vec<Form>, Form)>, BindFault>
    requires { IsWithinLimits form.now }
    ensures value { IfOk result (λ o. replaced_in o ≡
        part_rewritten types.now hyps.now (meant_by change.now) form.now path.now) }
    ensures too_large { result ≡ Err TooLarge →
        HasLargePart (part_rewritten types.now hyps.now (meant_by change.now) form.now path.now) }
{
    let Some(old) = at(form, path) else {
        return Ok(None);
    };
    match instance_for(alloc, types, hyps, change, old) {
        Ok(found) => placed(alloc, types, form, path, old, found),
        Err(BindFault::TooLarge) => Err(BindFault::TooLarge),
        Err(BindFault::Memory) => Err(BindFault::Memory),
    }
}

// The law's sides, and the formula with its right side at the path, where the law is one of what stands there.
fn placed(
    alloc: Global,
    types: &VarTable,
    form: &Form,
    path: &[u32],
    old: &Form,
    found: Option<LawInstance>,
) -> Result<Option<(Vec<Form>, Form)>, BindFault>
    requires { IsSome (sub_at form.now path.now) }
    ensures value { IfOk result (λ o. replaced_in o ≡
        option_and_then (λ i. when (stands_for types.now old.now i) (i.sides, put_at form.now path.now i.right)) (instance_in found)) }
    ensures too_large { result ≡ Err TooLarge → HasLargePart
        (option_and_then (λ i. when (stands_for types.now old.now i) (i.sides, put_at form.now path.now i.right)) (instance_in found)) }
{
    let Some(instance) = found else {
        return Ok(None);
    };
    if !stands_for(alloc, types, old, &instance)? {
        return Ok(None);
    }
    let LawInstance { sides, left, right } = instance;
    let _left = left;
    let new = put(alloc, form, path, right)?;
    Ok(Some((sides, new)))
}

// Whether the law's left formula is the one that stands there, and its right one has the same role.
fn stands_for(
    alloc: Global,
    types: &VarTable,
    old: &Form,
    instance: &LawInstance,
) -> Result<bool, Memory>
    ensures { IfOk result (λ b. b ≡ stands_for types.now old.now (instance_of instance.now)) }
{
    if !same(&instance.left, old) {
        return Ok(false);
    }
    have_one_role(alloc, types, &instance.left, &instance.right)
}

// A branch for each goal, then the last one.
fn goals_then(alloc: Global, forms: &[Form], last: Branch) -> Result<Vec<Branch>, Memory>
    ensures { IfOk result (λ bs. map branch_of bs.items ≡ goals_then forms.now (branch_of last)) }
{
    let mut branches = Vec::new(alloc);
    for form in forms {
        branches.push(goal(alloc, form)?)?;
    }
    branches.push(last)?;
    Ok(branches)
}
