//! What may come for a formula where it stands.

use crate::law::law_does_not_fit;
use crate::words::Words;
use bk_form::{BinOp, Domain, Form, TyView, UnOp, View};
use bk_io::Memory;
use bk_seq::{Sequent, numbered};
use bk_types::{Role, role_of};

/// What a rule puts for what stands at a place.
#[derive(Clone, Copy)]
pub(crate) enum Change<'a> {
    /// The other side of a hypothesis, for the left one where that is said.
    Equation(u32, bool),
    /// The other side of a law at these terms, for the left one where that is said.
    Law(u16, &'a [Form], bool),
    Deciding,
    Typing,
    Negating,
    Belonging,
    Applying,
    Extending,
    Including,
    Witnessing,
}

/// Says why nothing comes for the formula that stands there.
pub(crate) fn change_does_not_fit(
    words: &mut Words<'_>,
    sequent: &Sequent,
    change: Change<'_>,
    old: &Form,
) -> Result<bool, Memory> {
    match change {
        Change::Equation(number, forward) => {
            equation_is_elsewhere(words, sequent, number, forward, old)
        }
        Change::Law(law, picks, forward) => law_does_not_fit(words, law, picks, forward, old),
        _ => is_of_other_form(words, change, old),
    }
}

// Says that what stands there is no formula of the kind that the rule changes.
fn is_of_other_form(words: &mut Words<'_>, change: Change<'_>, old: &Form) -> Result<bool, Memory> {
    let wanted: &[u8] = match change {
        Change::Deciding => {
            b"a comparison of sums of numbers, a membership of one in NATURAL, NATURAL1 or an interval, or an equality of two elements or truth values"
        }
        Change::Typing => b"of the form E : N where N is BOOL, INTEGER or an enumerated set",
        Change::Negating => b"the negation of a quantifier",
        Change::Belonging => b"a membership in a comprehension, or of a pair in a lambda",
        Change::Applying => b"a lambda applied to a term",
        Change::Extending => b"an equality of sets",
        Change::Including => b"of the form S : POW(A)",
        Change::Witnessing => {
            b"a membership in a domain, a range or an image, or of a pair in a composition"
        }
        Change::Equation(_, _) | Change::Law(_, _, _) => return Ok(false),
    };
    if is_wanted(words, change, old)? {
        return Ok(false);
    }
    words.say(b"at the place stands ")?;
    words.form(old)?;
    words.say(b", which is not ")?;
    words.say(wanted)?;
    Ok(true)
}

// Whether a formula is of the kind that the rule changes, by its outermost node.
fn is_wanted(words: &Words<'_>, change: Change<'_>, old: &Form) -> Result<bool, Memory> {
    match change {
        Change::Typing => Ok(has_domain(old)),
        Change::Negating => Ok(denies_quantifier(old)),
        Change::Applying => Ok(applies_lambda(old)),
        Change::Extending => is_equality_of_sets(words, old),
        Change::Including => Ok(is_inclusion(old)),
        Change::Belonging => Ok(is_in_comprehension(old)),
        Change::Witnessing => Ok(has_witness(old)),
        _ => Ok(false),
    }
}

fn has_domain(form: &Form) -> bool {
    match form.view() {
        View::Bin(BinOp::In, _, domain) => matches!(
            domain.view(),
            View::Name(Domain::Integer | Domain::Bool | Domain::Enum(_))
        ),
        _ => false,
    }
}

fn denies_quantifier(form: &Form) -> bool {
    match form.view() {
        View::Un(UnOp::Not, operand) => {
            matches!(operand.view(), View::All(_, _) | View::Some(_, _))
        }
        _ => false,
    }
}

fn applies_lambda(form: &Form) -> bool {
    match form.view() {
        View::Bin(BinOp::Apply, function, _) => matches!(function.view(), View::Lam(_, _, _)),
        _ => false,
    }
}

fn is_equality_of_sets(words: &Words<'_>, form: &Form) -> Result<bool, Memory> {
    let View::Bin(BinOp::Eq, left, _) = form.view() else {
        return Ok(false);
    };
    match role_of(words.alloc, left, &[], words.table)? {
        Role::Value(ty) => Ok(matches!(ty.view(), TyView::Set(_))),
        _ => Ok(false),
    }
}

fn is_inclusion(form: &Form) -> bool {
    match form.view() {
        View::Bin(BinOp::In, _, set) => matches!(set.view(), View::Un(UnOp::Pow, _)),
        _ => false,
    }
}

fn is_in_comprehension(form: &Form) -> bool {
    match form.view() {
        View::Bin(BinOp::In, _, set) => matches!(
            set.view(),
            View::Compr(_, _) | View::Lam(_, _, _)
        ),
        _ => false,
    }
}

fn has_witness(form: &Form) -> bool {
    match form.view() {
        View::Bin(BinOp::In, _, set) => matches!(
            set.view(),
            View::Un(UnOp::Dom | UnOp::Ran, _) | View::Bin(BinOp::Image | BinOp::Comp, _, _)
        ),
        _ => false,
    }
}

// Says that a hypothesis is no equation, or that its side does not stand at the place.
fn equation_is_elsewhere(
    words: &mut Words<'_>,
    sequent: &Sequent,
    number: u32,
    forward: bool,
    old: &Form,
) -> Result<bool, Memory> {
    let Some(hypothesis) = numbered(&sequent.hyps, number) else {
        words.no_hypothesis(sequent, number)?;
        return Ok(true);
    };
    let View::Bin(BinOp::Eq, left, right) = hypothesis.view() else {
        words.hypothesis(number)?;
        words.say(b" is not of the form E = F: it is ")?;
        words.form(hypothesis)?;
        return Ok(true);
    };
    let (wanted, other) = if forward {
        (left, right)
    } else {
        (right, left)
    };
    if old.equal(wanted) {
        return Ok(false);
    }
    words.say(b"at the place stands ")?;
    words.form(old)?;
    words.say(b", and the ")?;
    words.say(if forward {
        b"left side of "
    } else {
        b"right side of "
    })?;
    words.hypothesis(number)?;
    words.say(b" is ")?;
    words.form(wanted)?;
    if old.equal(other) {
        words.say(if forward { b"; qe fits" } else { b"; eq fits" })?;
    }
    Ok(true)
}
