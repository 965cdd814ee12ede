//! The predicates that substitutions hold as they are written.

use crate::names::{Note, add_written};
use bk_io::Memory;
use bk_raw::{RawBranch, RawSub, RawSubNode};
use bk_scope::binders::last_of;
use std::alloc::Global;

/// Adds the predicates of a substitution that bind variables.
#[tactic(auto, using(bk_scope::proofs::SubSizes::parts_are_smaller))]
#[cycle(written)]
pub(crate) fn add_substitution(
    alloc: Global,
    notes: &mut Vec<Note>,
    sub: &RawSub,
) -> Result<(), Memory> {
    match &sub.node {
        RawSubNode::Skip
        | RawSubNode::Assign(_, _)
        | RawSubNode::AssignAt(_, _, _)
        | RawSubNode::BecomesMember(_, _)
        | RawSubNode::Call(_, _, _) => Ok(()),
        RawSubNode::BecomesSuch(_, term) => add_written(alloc, notes, term),
        RawSubNode::Begin(body) | RawSubNode::Var(_, body) => add_substitution(alloc, notes, body),
        RawSubNode::Pre(term, body)
        | RawSubNode::Assert(term, body)
        | RawSubNode::Any(_, term, body)
        | RawSubNode::Let(_, term, body) => {
            add_written(alloc, notes, term)?;
            add_substitution(alloc, notes, body)
        }
        RawSubNode::If(term, first, others, last) | RawSubNode::Select(term, first, others, last) =>
            {
                add_written(alloc, notes, term)?;
                add_substitution(alloc, notes, first)?;
                add_branches(alloc, notes, others, last_of(last))
            }
        RawSubNode::Choice(first, others) => {
            add_substitution(alloc, notes, first)?;
            add_choices(alloc, notes, others)
        }
        RawSubNode::While(test, body, invariant, _) => {
            add_written(alloc, notes, test)?;
            add_written(alloc, notes, invariant)?;
            add_substitution(alloc, notes, body)
        }
        RawSubNode::Parallel(left, right) | RawSubNode::Sequence(left, right) => {
            add_substitution(alloc, notes, left)?;
            add_substitution(alloc, notes, right)
        }
    }
}

// Those of further branches.
#[tactic(auto, using(bk_scope::proofs::SubSizes::parts_are_smaller))]
#[cycle(written)]
fn add_branches(
    alloc: Global,
    notes: &mut Vec<Note>,
    branches: &[RawBranch],
    last: Option<&RawSub>,
) -> Result<(), Memory> {
    let [branch, others @ ..] = branches else {
        return match last {
            Some(last) => add_substitution(alloc, notes, last),
            None => Ok(()),
        };
    };
    add_written(alloc, notes, &branch.condition)?;
    add_substitution(alloc, notes, &branch.body)?;
    add_branches(alloc, notes, others, last)
}

// Those of further choices.
#[tactic(auto, using(bk_scope::proofs::SubSizes::parts_are_smaller))]
#[cycle(written)]
fn add_choices(alloc: Global, notes: &mut Vec<Note>, choices: &[RawSub]) -> Result<(), Memory> {
    let [choice, others @ ..] = choices else {
        return Ok(());
    };
    add_substitution(alloc, notes, choice)?;
    add_choices(alloc, notes, others)
}
