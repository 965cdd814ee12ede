// Orders of numbers: alone, or two of them for an equation or a membership of an interval.

ghost use Rattle.std.specs.Prelude.{◌≡◌, ◌↔◌, ◌<◌, ◌+◌, ◌-◌, ◌^◌, [], true, false, map, Ok, IsTrue, IfOk, OnOk};
ghost use Rattle.bk_val.specs.ValueType.{int_type};
ghost use Rattle.bk_form.specs.Formula.{binary, formula_size};
ghost use Rattle.bk_form.specs.Role.{role, gives};
ghost use Rattle.bk_form.specs.declared.operator.BinOp.TheVariants.{Eq, Le, In, Range};
ghost use Rattle.bk_seq.specs.Sequents.{sequent_of};
ghost use Rattle.bk_kernel.specs.Obvious.{is_obvious};
ghost use Rattle.bk_auto.specs.Found.{IsReady, Told, TellsBoth, Orders, IsOrder, IsLawOfGoal};

use crate::adding::add;
use crate::arithmetic::by_arithmetic;
use crate::closing::close;
use crate::views::sides;
use bk_form::{BinOp, Form, Part, Ty, TyView, VarTable};
use bk_io::Memory;
use bk_kernel::{Place, Rule, is_obvious};
use bk_seq::Sequent;
use bk_types::{Role, role_of};
use std::alloc::Global;

/// The law that an equation of integers is two orders.
const EQUAL: u16 = 101;

/// The law that a membership of an interval is two orders.
const WITHIN: u16 = 105;

/// The goal `a : l .. h`: `l <= a` and `a <= h`.
pub(crate) fn within(
    alloc: Global,
    types: &VarTable,
    sequent: &Sequent,
    element: &Form,
    set: &Form,
    rules: &mut Vec<Rule>,
) -> Result<bool, Memory>
    requires ready { IsReady types.now (sequent_of sequent.now) }
    requires goal { sequent.now.goal ≡ binary In element.now set.now }
    requires open { is_obvious sequent.now.hyps.items sequent.now.goal ≡ false }
    ensures { IfOk result (λ b. Told b types.now types.now rules.old.items rules.new.items (sequent_of sequent.now)) }
{
    let Some((low, high)) = sides(BinOp::Range, set) else {
        return Ok(false);
    };
    add_law(alloc, rules, WITHIN, &[element, low, high])?;
    add(rules, Rule::And)?;
    both_orders(alloc, sequent, low, element, high, rules)
}

/// The goal `a = b`, where these are integers: `a <= b` and `b <= a`.
pub(crate) fn equal(
    alloc: Global,
    types: &VarTable,
    sequent: &Sequent,
    left: &Form,
    right: &Form,
    rules: &mut Vec<Rule>,
) -> Result<bool, Memory>
    requires ready { IsReady types.now (sequent_of sequent.now) }
    requires goal { sequent.now.goal ≡ binary Eq left.now right.now }
    requires open { is_obvious sequent.now.hyps.items sequent.now.goal ≡ false }
    ensures { IfOk result (λ b. Told b types.now types.now rules.old.items rules.new.items (sequent_of sequent.now)) }
{
    if !is_number(alloc, types, left)? {
        return Ok(false);
    }
    add_law(alloc, rules, EQUAL, &[left, right])?;
    add(rules, Rule::And)?;
    both_orders(alloc, sequent, left, right, left, rules)
}

// Adds the rule of a law without conditions, at the whole goal.
fn add_law(alloc: Global, rules: &mut Vec<Rule>, law: u16, picks: &[&Form]) -> Result<(), Memory>
    ensures { OnOk result (IsLawOfGoal rules.old.items rules.new.items law (map (λ f. f.now) picks.now)) }
{
    let mut list = Vec::new(alloc);
    for pick in picks {
        list.push(pick.copy(alloc)?)?;
    }
    let place = Place::Goal(Vec::new(alloc));
    add(
        rules,
        Rule::Law {
            law,
            picks: list,
            place,
        },
    )
}

// `low <= middle`, then `middle <= high`.
fn both_orders(
    alloc: Global,
    sequent: &Sequent,
    low: &Form,
    middle: &Form,
    high: &Form,
    rules: &mut Vec<Rule>,
) -> Result<bool, Memory>
    requires first { formula_size low.now + formula_size middle.now < 2 ^ 32 - 1 }
    requires second { formula_size middle.now + formula_size high.now < 2 ^ 32 - 1 }
    ensures { IfOk result (λ b. TellsBoth b rules.old.items rules.new.items sequent.now.hyps.items
        (binary Le low.now middle.now) (binary Le middle.now high.now)) }
{
    let first = order(alloc, sequent, low, middle)?;
    if !by_order(alloc, &first, rules)? {
        return Ok(false);
    }
    let second = order(alloc, sequent, middle, high)?;
    by_order(alloc, &second, rules)
}

// The sequent with the goal `left <= right`.
fn order(alloc: Global, sequent: &Sequent, left: &Form, right: &Form) -> Result<Sequent, Memory>
    requires { formula_size left.now + formula_size right.now < 2 ^ 32 - 1 }
    ensures { IfOk result (λ s. sequent_of s ≡ (sequent.now.hyps.items, binary Le left.now right.now)) }
{
    let part = Part::Bin(BinOp::Le, left.copy(alloc)?, right.copy(alloc)?);
    Ok(Sequent {
        hyps: Form::copy_all(&sequent.hyps, alloc)?,
        goal: Form::make(alloc, part)?,
    })
}

// One order: obvious, or by arithmetic.
fn by_order(alloc: Global, sequent: &Sequent, rules: &mut Vec<Rule>) -> Result<bool, Memory>
    requires { IsOrder sequent.now.goal }
    ensures { IfOk result (λ b. Orders b rules.old.items rules.new.items (sequent_of sequent.now)) }
{
    if is_obvious(sequent) {
        close(alloc, sequent, rules)?;
        return Ok(true);
    }
    by_arithmetic(alloc, sequent, rules)
}

// Whether it is a whole number.
fn is_number(alloc: Global, types: &VarTable, form: &Form) -> Result<bool, Memory>
    ensures number { result ≡ Ok true → role types.now [] form.now ≡ gives int_type }
    ensures other { result ≡ Ok false → role types.now [] form.now ≡ gives int_type → ⊥ }
{
    let none = Vec::new(alloc);
    match role_of(alloc, form, &none, types)? {
        Role::Value(ty) => Ok(is_integer(&ty)),
        _ => Ok(false),
    }
}

// Whether it is the type of whole numbers.
fn is_integer(ty: &Ty) -> bool
    ensures { IsTrue result ↔ (ty.now ≡ int_type) }
{
    match ty.view() {
        TyView::Int => true,
        _ => false,
    }
}
