//! The parts into which a goal is taken apart.

use bk_form::{BinOp, Form, View};
use bk_gsl::{Sub, SubNode};
use bk_io::Memory;
use bk_raw::{InfixOp, RawNode, RawTerm};
use std::alloc::Global;

/// A part of a goal: what it asks, and the byte of the component's text that it comes from, if one is known.
#[derive(Clone, Copy, PartialEq, Eq)]
pub(crate) struct Leaf {
    pub(crate) what: What,
    pub(crate) at: Option<usize>,
}

/// What a part of a goal asks. Numbers are from 1.
#[derive(Clone, Copy, PartialEq, Eq)]
pub(crate) enum What {
    /// This conjunct of the invariant, the properties or an assertion.
    Conjunct(usize),
    /// That a variable equals one above.
    Linked(u32, u32),
    /// That the output with this number equals the one above.
    Output(usize),
    /// A condition: of PRE, ASSERT or a guard.
    Condition,
    /// That a loop's invariant holds before its first turn.
    AtFirst,
    /// That a turn of a loop keeps its invariant.
    Kept,
    /// That a loop's variant is a natural number.
    Natural,
    /// That it falls.
    Falls,
    /// What follows a loop.
    Behind,
    /// Several of these in one.
    Whole,
}

/// The parts of a formula that this term is read as: a part for each sequent of it, with the number and the place of its conjunct.
pub(crate) fn conjunct_leaves(
    alloc: Global,
    form: &Form,
    raw: Option<&RawTerm>,
) -> Result<Vec<Leaf>, Memory> {
    let mut leaves = Vec::new(alloc);
    let mut number = 0usize;
    add_conjuncts(&mut leaves, &mut number, form, raw)?;
    Ok(leaves)
}

// The conjuncts of a formula, side by side with those of its term.
fn add_conjuncts(
    leaves: &mut Vec<Leaf>,
    number: &mut usize,
    form: &Form,
    raw: Option<&RawTerm>,
) -> Result<(), Memory> {
    if let View::Bin(BinOp::And, left, right) = form.view() {
        if let Some((first, second)) = sides_of(raw) {
            add_conjuncts(leaves, number, left, Some(first))?;
            return add_conjuncts(leaves, number, right, Some(second));
        }
    }
    *number = number.saturating_add(1);
    let leaf = Leaf {
        what: What::Conjunct(*number),
        at: raw.map(|term| term.at),
    };
    add_parts(leaves, leaf, form)
}

// The sides of a conjunction as it is written.
fn sides_of(raw: Option<&RawTerm>) -> Option<(&RawTerm, &RawTerm)> {
    let term = raw?;
    match &term.node {
        RawNode::Infix(InfixOp::And, left, right) => Some((left, right)),
        _ => None,
    }
}

// The leaf once for each sequent into which the formula is taken apart.
fn add_parts(leaves: &mut Vec<Leaf>, leaf: Leaf, form: &Form) -> Result<(), Memory> {
    match form.view() {
        View::Bin(BinOp::And, left, right) => {
            add_parts(leaves, leaf, left)?;
            add_parts(leaves, leaf, right)
        }
        View::Bin(BinOp::Imp, _, right) => add_parts(leaves, leaf, right),
        View::True => Ok(()),
        _ => {
            leaves.push(leaf)?;
            Ok(())
        }
    }
}

/// The same of a condition.
pub(crate) fn condition_leaves(
    alloc: Global,
    form: &Form,
    what: What,
) -> Result<Vec<Leaf>, Memory> {
    let mut leaves = Vec::new(alloc);
    add_parts(&mut leaves, Leaf { what, at: None }, form)?;
    Ok(leaves)
}

/// The parts of the box of a substitution, of what is asked after it.
pub(crate) fn box_leaves(alloc: Global, sub: &Sub, behind: &[Leaf]) -> Result<Vec<Leaf>, Memory> {
    match &*sub.node {
        SubNode::Skip | SubNode::Assign(_) => Ok(Vec::from_slice(alloc, behind)?),
        SubNode::Pre(condition, body) | SubNode::Assert(condition, body) => {
            let first = condition_leaves(alloc, condition, What::Condition)?;
            joined(first, box_leaves(alloc, body, behind)?)
        }
        SubNode::Guard(_, body) => box_leaves(alloc, body, behind),
        SubNode::Choice(left, right) | SubNode::If(_, left, right) => {
            let first = box_leaves(alloc, left, behind)?;
            joined(first, box_leaves(alloc, right, behind)?)
        }
        SubNode::Seq(first, second) => {
            let between = box_leaves(alloc, second, behind)?;
            box_leaves(alloc, first, &between)
        }
        SubNode::While {
            test: _,
            body: _,
            invariant,
            variant: _,
        } => loop_leaves(alloc, invariant),
        SubNode::Any(_, _) | SubNode::BecomesSuch(_, _) | SubNode::Par(_, _) => {
            in_one(alloc, behind)
        }
    }
}

// The parts of the box of a loop that writes something.
fn loop_leaves(alloc: Global, invariant: &Form) -> Result<Vec<Leaf>, Memory> {
    let mut leaves = condition_leaves(alloc, invariant, What::AtFirst)?;
    for what in [What::Kept, What::Natural, What::Falls, What::Behind] {
        leaves.push(Leaf { what, at: None })?;
    }
    Ok(leaves)
}

/// The parts of the diamond of a substitution.
pub(crate) fn diamond_leaves(
    alloc: Global,
    sub: &Sub,
    behind: &[Leaf],
) -> Result<Vec<Leaf>, Memory> {
    match &*sub.node {
        SubNode::Skip | SubNode::Assign(_) => Ok(Vec::from_slice(alloc, behind)?),
        SubNode::Pre(_, body) => diamond_leaves(alloc, body, behind),
        SubNode::Guard(condition, body) | SubNode::Assert(condition, body) => {
            let first = condition_leaves(alloc, condition, What::Condition)?;
            joined(first, diamond_leaves(alloc, body, behind)?)
        }
        SubNode::Seq(first, second) => {
            let between = diamond_leaves(alloc, second, behind)?;
            diamond_leaves(alloc, first, &between)
        }
        _ => in_one(alloc, behind),
    }
}

/// The first parts, and the others after them.
pub(crate) fn joined(mut first: Vec<Leaf>, second: Vec<Leaf>) -> Result<Vec<Leaf>, Memory> {
    first.extend_from_slice(&second)?;
    Ok(first)
}

// All parts in one.
fn in_one(alloc: Global, leaves: &[Leaf]) -> Result<Vec<Leaf>, Memory> {
    let one = match leaves {
        [only] => *only,
        _ => Leaf {
            what: What::Whole,
            at: None,
        },
    };
    Ok(Vec::from_array(alloc, [one])?)
}
