// What a written substitution binds: how much, and with which texts.

ghost use Rattle.std.specs.Option.{option_copied};
ghost use Rattle.std.specs.Prelude.{◌≡◌, ◌+◌, ◌++◌, ◌∷◌, [], IfOk, OnOk};
ghost use Rattle.bk_raw.specs.Codes.SubView.{choices_of};
ghost use Rattle.bk_statics.specs.Binders as meant;
ghost use Rattle.bk_scope.specs.Shown.{branches_shown, unboxed};

use crate::sight::at_level;
use bk_io::{Memory, Text};
use bk_raw::{RawBranch, RawName, RawSub, RawSubNode};
use std::alloc::Global;

// How much a substitution binds.
#[tactic(auto, using(crate::proofs::SubSizes::parts_are_smaller))]
#[cycle(counting)]
pub fn binder_count(sub: &RawSub) -> Result<usize, Memory>
    ensures { IfOk result (λ n. n ≡ meant.binder_count sub.now) }
{
    match &sub.node {
        RawSubNode::Skip
        | RawSubNode::Assign(_, _)
        | RawSubNode::AssignAt(_, _, _)
        | RawSubNode::Call(_, _, _) => Ok(0),
        RawSubNode::BecomesMember(_, _) => Ok(1),
        RawSubNode::BecomesSuch(names, _) => Ok(names.len()),
        RawSubNode::Begin(body)
        | RawSubNode::Pre(_, body)
        | RawSubNode::Assert(_, body)
        | RawSubNode::While(_, body, _, _) => binder_count(body),
        RawSubNode::If(_, first, others, last) | RawSubNode::Select(_, first, others, last) => {
            let first = binder_count(first)?;
            both(first, branches_count(others, last_of(last))?)
        }
        RawSubNode::Choice(first, others) => {
            let first = binder_count(first)?;
            both(first, choices_count(others)?)
        }
        RawSubNode::Any(names, _, body)
        | RawSubNode::Let(names, _, body)
        | RawSubNode::Var(names, body) => both(names.len(), binder_count(body)?),
        RawSubNode::Parallel(left, right) | RawSubNode::Sequence(left, right) => {
            let left = binder_count(left)?;
            both(left, binder_count(right)?)
        }
    }
}

// What stands after ELSE, where there is one.
pub fn last_of(last: &Option<Box<RawSub>>) -> Option<&RawSub>
    ensures { option_copied result ≡ unboxed last.now }
{
    match last {
        Some(last) => Some(last),
        None => None,
    }
}

// How much further branches bind.
#[tactic(auto, using(crate::proofs::SubSizes::parts_are_smaller))]
#[cycle(counting)]
pub fn branches_count(branches: &[RawBranch], last: Option<&RawSub>) -> Result<usize, Memory>
    ensures { IfOk result (λ n. n ≡ meant.branches_count (branches_shown branches.now (option_copied last.entry))) }
{
    let [branch, others @ ..] = branches else {
        return match last {
            Some(last) => binder_count(last),
            None => Ok(0),
        };
    };
    let first = binder_count(&branch.body)?;
    both(first, branches_count(others, last)?)
}

// How much further choices bind.
#[tactic(auto, using(crate::proofs::SubSizes::parts_are_smaller))]
#[cycle(counting)]
fn choices_count(choices: &[RawSub]) -> Result<usize, Memory>
    ensures { IfOk result (λ n. n ≡ meant.choices_count (choices_of choices.now)) }
{
    let [choice, others @ ..] = choices else {
        return Ok(0);
    };
    let first = binder_count(choice)?;
    both(first, choices_count(others)?)
}

// Both together.
fn both(left: usize, right: usize) -> Result<usize, Memory>
    ensures { IfOk result (λ n. n ≡ left + right) }
{
    match left.checked_add(right) {
        Some(sum) => Ok(sum),
        None => Err(Memory),
    }
}

// The texts of all that a substitution binds go after those that were found.
#[tactic(auto, using(crate::proofs::SubSizes::parts_are_smaller))]
#[cycle(texts)]
pub fn push_binder_texts(alloc: Global, found: &mut Vec<Text>, sub: &RawSub) -> Result<(), Memory>
    ensures { OnOk result (found.new.items ≡ found.old.items ++ meant.binder_texts sub.now) }
{
    match &sub.node {
        RawSubNode::Skip
        | RawSubNode::Assign(_, _)
        | RawSubNode::AssignAt(_, _, _)
        | RawSubNode::Call(_, _, _) => Ok(()),
        RawSubNode::BecomesMember(name, _) => push_text(alloc, found, name),
        RawSubNode::BecomesSuch(names, _) => push_old_texts(alloc, found, names),
        RawSubNode::Begin(body)
        | RawSubNode::Pre(_, body)
        | RawSubNode::Assert(_, body)
        | RawSubNode::While(_, body, _, _) => push_binder_texts(alloc, found, body),
        RawSubNode::If(_, first, others, last) | RawSubNode::Select(_, first, others, last) => {
            push_binder_texts(alloc, found, first)?;
            push_branches_texts(alloc, found, others, last_of(last))
        }
        RawSubNode::Choice(first, others) => {
            push_binder_texts(alloc, found, first)?;
            push_choices_texts(alloc, found, others)
        }
        RawSubNode::Any(names, _, body)
        | RawSubNode::Let(names, _, body)
        | RawSubNode::Var(names, body) => {
            push_texts(alloc, found, names)?;
            push_binder_texts(alloc, found, body)
        }
        RawSubNode::Parallel(left, right) | RawSubNode::Sequence(left, right) => {
            push_binder_texts(alloc, found, left)?;
            push_binder_texts(alloc, found, right)
        }
    }
}

// Those of further branches.
#[tactic(auto, using(crate::proofs::SubSizes::parts_are_smaller))]
#[cycle(texts)]
fn push_branches_texts(
    alloc: Global,
    found: &mut Vec<Text>,
    branches: &[RawBranch],
    last: Option<&RawSub>,
) -> Result<(), Memory>
    ensures { OnOk result (found.new.items ≡
        found.old.items ++ meant.branches_texts (branches_shown branches.now (option_copied last.entry))) }
{
    let [branch, others @ ..] = branches else {
        return match last {
            Some(last) => push_binder_texts(alloc, found, last),
            None => Ok(()),
        };
    };
    push_binder_texts(alloc, found, &branch.body)?;
    push_branches_texts(alloc, found, others, last)
}

// Those of further choices.
#[tactic(auto, using(crate::proofs::SubSizes::parts_are_smaller))]
#[cycle(texts)]
fn push_choices_texts(
    alloc: Global,
    found: &mut Vec<Text>,
    choices: &[RawSub],
) -> Result<(), Memory>
    ensures { OnOk result (found.new.items ≡ found.old.items ++ meant.choices_texts (choices_of choices.now)) }
{
    let [choice, others @ ..] = choices else {
        return Ok(());
    };
    push_binder_texts(alloc, found, choice)?;
    push_choices_texts(alloc, found, others)
}

// A name's text goes after those that were found.
pub fn push_text(alloc: Global, found: &mut Vec<Text>, name: &RawName) -> Result<(), Memory>
    ensures { OnOk result (found.new.items ≡ found.old.items ++ name.now.text ∷ []) }
{
    found.push(name.text.copy(alloc)?)?;
    Ok(())
}

// The texts of names go after those that were found.
pub fn push_texts(alloc: Global, found: &mut Vec<Text>, names: &[RawName]) -> Result<(), Memory>
    ensures { OnOk result (found.new.items ≡ found.old.items ++ meant.texts names.now) }
{
    for name in names {
        push_text(alloc, found, name)?;
    }
    Ok(())
}

// The texts `x$0` of names go after those that were found.
fn push_old_texts(alloc: Global, found: &mut Vec<Text>, names: &[RawName]) -> Result<(), Memory>
    ensures { OnOk result (found.new.items ≡ found.old.items ++ meant.old_texts names.now) }
{
    for name in names {
        found.push(at_level(alloc, name.text.as_bytes(), 0)?)?;
    }
    Ok(())
}
