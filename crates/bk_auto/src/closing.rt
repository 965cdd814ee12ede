// Obvious sequents, closed by one rule or two.

ghost use Rattle.std.specs.Prelude.{◌≡◌, true, false, Some, IfOk, OnOk, MatchOption};
ghost use Rattle.std.specs.List.{list_any};
ghost use Rattle.bk_form.specs.Formula.{binary};
ghost use Rattle.bk_form.specs.declared.operator.BinOp.TheVariants.{Eq, In};
ghost use Rattle.bk_arith.specs.Same.{is_same};
ghost use Rattle.bk_seq.specs.Paths.{numbered_item};
ghost use Rattle.bk_seq.specs.Sequents.{sequent_of};
ghost use Rattle.bk_kernel.specs.Obvious.{has_all, holds_plainly, is_plain, is_obvious};
ghost use Rattle.bk_auto.specs.Found.{Closes, ClosesAnywhere};

use crate::adding::{add, number_at};
use bk_form::{BinOp, Domain, Form, View};
use bk_io::Memory;
use bk_kernel::{Place, Rule};
use bk_seq::Sequent;
use std::alloc::Global;

/// Adds the rules that close an obvious sequent.
pub(crate) fn close(alloc: Global, sequent: &Sequent, rules: &mut Vec<Rule>) -> Result<(), Memory>
    requires { is_obvious sequent.now.hyps.items sequent.now.goal ≡ true }
    ensures { OnOk result (Closes rules.old.items rules.new.items (sequent_of sequent.now)) }
{
    match place_of(&sequent.hyps, &sequent.goal)? {
        Some(number) => add(rules, Rule::Hyp(number)),
        None => close_plain(alloc, &sequent.goal, rules),
    }
}

// The number of a hypothesis that is the formula.
fn place_of(hyps: &[Form], form: &Form) -> Result<Option<u32>, Memory>
    ensures { IfOk result (λ o. MatchOption o (list_any (is_same form.now) hyps.now ≡ false)
        (λ n. numbered_item hyps.now n ≡ Some form.now)) }
{
    for index in 0..hyps.len() {
        if hyps[index].equal(form) {
            return Ok(Some(number_at(index)?));
        }
    }
    Ok(None)
}

// Adds the rules that close a goal which needs no hypothesis.
fn close_plain(alloc: Global, goal: &Form, rules: &mut Vec<Rule>) -> Result<(), Memory>
    requires { is_plain goal.now ≡ true }
    ensures { OnOk result (ClosesAnywhere rules.old.items rules.new.items goal.now) }
{
    match goal.view() {
        View::Bin(op, left, right) => close_sides(alloc, op, left, right, rules),
        _ => Ok(()),
    }
}

// The same of a goal with two sides.
fn close_sides(
    alloc: Global,
    op: BinOp,
    left: &Form,
    right: &Form,
    rules: &mut Vec<Rule>,
) -> Result<(), Memory>
    requires { holds_plainly op left.now right.now ≡ true }
    ensures { OnOk result (ClosesAnywhere rules.old.items rules.new.items (binary op left.now right.now)) }
{
    match op {
        BinOp::Eq => close_equation(left, right, rules),
        BinOp::In => close_membership(alloc, left, right, rules),
        _ => add(rules, Rule::Eval(None)),
    }
}

// The same of an equation: both sides are one, or equal numbers.
fn close_equation(left: &Form, right: &Form, rules: &mut Vec<Rule>) -> Result<(), Memory>
    requires { holds_plainly Eq left.now right.now ≡ true }
    ensures { OnOk result (ClosesAnywhere rules.old.items rules.new.items (binary Eq left.now right.now)) }
{
    if left.equal(right) {
        add(rules, Rule::Same)
    } else {
        add(rules, Rule::Eval(None))
    }
}

// The same of a membership: in a set with every value of a type, or of a number.
fn close_membership(
    alloc: Global,
    element: &Form,
    set: &Form,
    rules: &mut Vec<Rule>,
) -> Result<(), Memory>
    requires { holds_plainly In element.now set.now ≡ true }
    ensures { OnOk result (ClosesAnywhere rules.old.items rules.new.items (binary In element.now set.now)) }
{
    let _element = element;
    if !has_all(set) {
        return add(rules, Rule::Eval(None));
    }
    add(rules, Rule::TypeOf(Place::Goal(Vec::new(alloc))))?;
    add(rules, Rule::True)
}

// Whether it names a set that has every value of a type.
fn has_all(form: &Form) -> bool
    ensures { result ≡ has_all form.now }
{
    match form.view() {
        View::Name(Domain::Integer | Domain::Bool | Domain::Enum(_)) => true,
        _ => false,
    }
}
