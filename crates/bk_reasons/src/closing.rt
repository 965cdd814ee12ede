//! Rules that leave nothing.

use crate::compare::say_difference;
use crate::shape::{Shape, goal_is_no, hypothesis_is_no};
use crate::words::Words;
use bk_arith::{ArithFault, closed, polynomial};
use bk_form::{BinOp, Domain, Form, UnOp, View};
use bk_io::Memory;
use bk_seq::{Sequent, numbered};

/// The goal is another formula than a hypothesis.
pub(crate) fn goal_is_other(
    words: &mut Words<'_>,
    sequent: &Sequent,
    number: u32,
) -> Result<bool, Memory> {
    let Some(hypothesis) = numbered(&sequent.hyps, number) else {
        words.no_hypothesis(sequent, number)?;
        return Ok(true);
    };
    words.hypothesis(number)?;
    words.say(b" is not the goal: it is ")?;
    words.form(hypothesis)?;
    words.say(b", and the goal is ")?;
    words.form(&sequent.goal)?;
    say_difference(words, hypothesis, &sequent.goal)?;
    if let Some(other) = place_of(&sequent.hyps, &sequent.goal) {
        words.say(b"; hypothesis ")?;
        words.number(other)?;
        words.say(b" is the goal")?;
    }
    Ok(true)
}

// The number, from 1, of the first formula that is this one.
fn place_of(forms: &[Form], wanted: &Form) -> Option<usize> {
    for (index, form) in forms.iter().enumerate() {
        if form.equal(wanted) {
            return Some(index.saturating_add(1));
        }
    }
    None
}

/// A hypothesis is not `bfalse`.
pub(crate) fn hypothesis_is_false(
    words: &mut Words<'_>,
    sequent: &Sequent,
    number: u32,
) -> Result<bool, Memory> {
    hypothesis_is_no(words, sequent, number, Shape::Falsity)
}

/// The second hypothesis does not deny the first.
pub(crate) fn is_denied(
    words: &mut Words<'_>,
    sequent: &Sequent,
    number: u32,
    denial: u32,
) -> Result<bool, Memory> {
    let Some(hypothesis) = numbered(&sequent.hyps, number) else {
        words.no_hypothesis(sequent, number)?;
        return Ok(true);
    };
    if hypothesis_is_no(words, sequent, denial, Shape::Negation)? {
        return Ok(true);
    }
    words.hypothesis(denial)?;
    words.say(b" is not the negation of ")?;
    words.hypothesis(number)?;
    words.say(b", which is ")?;
    words.form(hypothesis)?;
    if denies(&sequent.hyps, denial, number) {
        words.say(b"; with the two numbers exchanged it fits")?;
    }
    Ok(true)
}

// Whether the first hypothesis is `not` of the second.
fn denies(hyps: &[Form], number: u32, denial: u32) -> bool {
    let Some(hypothesis) = numbered(hyps, number) else {
        return false;
    };
    let Some(other) = numbered(hyps, denial) else {
        return false;
    };
    match other.view() {
        View::Un(UnOp::Not, operand) => operand.equal(hypothesis),
        _ => false,
    }
}

/// The goal is no equation, or its sides differ.
pub(crate) fn sides_differ(words: &mut Words<'_>, sequent: &Sequent) -> Result<bool, Memory> {
    if goal_is_no(words, sequent, Shape::Equation)? {
        return Ok(true);
    }
    let View::Bin(_, left, right) = sequent.goal.view() else {
        return Ok(false);
    };
    words.say(b"the sides differ: ")?;
    words.form(left)?;
    words.say(b" and ")?;
    words.form(right)?;
    say_difference(words, left, right)?;
    Ok(true)
}

/// The goal is no equation, or its sides do not multiply out to the same.
pub(crate) fn sums_differ(words: &mut Words<'_>, sequent: &Sequent) -> Result<bool, Memory> {
    if goal_is_no(words, sequent, Shape::Equation)? {
        return Ok(true);
    }
    let View::Bin(_, left, right) = sequent.goal.view() else {
        return Ok(false);
    };
    match polynomial(words.alloc, left, right) {
        Ok(true) => Ok(false),
        Ok(false) => {
            words.say(b"the sides are not equal when they are multiplied out: ")?;
            words.form(left)?;
            words.say(b" and ")?;
            words.form(right)?;
            Ok(true)
        }
        Err(ArithFault::Memory) => Err(Memory),
        Err(_) => {
            words.say(
                b"a coefficient or a constant is past 128 bits when the sides are multiplied out",
            )?;
            Ok(true)
        }
    }
}

/// What is told by this name is no comparison of closed sums, and no membership of one in a set of numbers; or it is false.
pub(crate) fn is_undecided(
    words: &mut Words<'_>,
    form: &Form,
    name: &[u8],
) -> Result<bool, Memory> {
    words.say(name)?;
    if is_closed(form) {
        words.say(b" is false: ")?;
        words.form(form)?;
        return Ok(true);
    }
    words.say(
        b" is not a comparison of sums of numbers, or a membership of one in NATURAL, NATURAL1 or an interval: it is ",
    )?;
    words.form(form)?;
    Ok(true)
}

// Whether a formula is a comparison or membership of closed sums.
fn is_closed(form: &Form) -> bool {
    match form.view() {
        View::Bin(BinOp::Eq | BinOp::Lt | BinOp::Le, left, right) => {
            closed(left).is_some() && closed(right).is_some()
        }
        View::Bin(BinOp::In, member, domain) => closed(member).is_some() && is_closed_set(domain),
        _ => false,
    }
}

// Whether a set is one of numbers whose bounds are closed sums.
fn is_closed_set(form: &Form) -> bool {
    match form.view() {
        View::Bin(BinOp::Range, low, high) => closed(low).is_some() && closed(high).is_some(),
        View::Name(Domain::Natural | Domain::Natural1) => true,
        _ => false,
    }
}
