//! Formulas at places in formulas. A path is a list of child numbers, from the whole formula on: the left side is 1 and
//! the right side 2, a single operand is 1, and the ranges of a comprehension or lambda count from 1. A path enters no
//! binder's body.

ghost use Rattle.std.specs.Prelude.{◌≡◌, ◌<◌, ◌^◌, Err, IsSome, IfOk, OnOk};
ghost use Rattle.std.specs.Option.{option_copied};
ghost use Rattle.bk_form.specs.Formula.{formula_size};
ghost use Rattle.bk_bind.specs.Limits.{IsWithinLimits};
ghost use Rattle.bk_bind.specs.declared.error.BindFault.TheVariants.{TooLarge};
ghost use Rattle.bk_seq.specs.Paths.{numbered_item, with_item, child, with_child, sub_at, put_at};

use bk_bind::{BindFault, bounded};
use bk_form::{Form, Part, View};
use bk_io::Memory;
use bk_limits::MOST_NODES;
use std::alloc::Global;

/// The formula at the path; None exactly where the path leaves the tree or enters a binder's body. Takes no memory.
pub fn at<'a>(form: &'a Form, path: &[u32]) -> Option<&'a Form>
    ensures { option_copied result ≡ sub_at form.now path.now }
{
    let mut here = form;
    for number in path {
        here = child(here, *number)?;
    }
    Some(here)
}

/// The formula with another one at the path, where there is one already. It is refused before anything large is made.
pub fn put(alloc: Global, form: &Form, path: &[u32], new: Form) -> Result<Form, BindFault>
    requires { IsSome (sub_at form.now path.now) }
    ensures value { IfOk result (λ f. f ≡ put_at form.now path.now new) }
    ensures within { OnOk result (IsWithinLimits (put_at form.now path.now new)) }
    ensures too_large { result ≡ Err TooLarge → IsWithinLimits (put_at form.now path.now new) → ⊥ }
{
    if nodes_after(form, path, &new) > MOST_NODES {
        return Err(BindFault::TooLarge);
    }
    bounded(build(alloc, form, path, new)?)
}

// How many nodes the formula will have with another one at the path.
fn nodes_after(form: &Form, path: &[u32], new: &Form) -> u64
    requires { IsSome (sub_at form.now path.now) }
    ensures { result ≡ formula_size (put_at form.now path.now new.now) }
{
    let old = at(form, path).unwrap();
    form.size() - old.size() + new.size()
}

// The formula with another one at the path; it is known to be small enough.
fn build(alloc: Global, form: &Form, path: &[u32], new: Form) -> Result<Form, Memory>
    requires place { IsSome (sub_at form.now path.now) }
    requires small { formula_size (put_at form.now path.now new) < 2 ^ 32 }
    ensures { IfOk result (λ f. f ≡ put_at form.now path.now new) }
{
    let [number, rest @ ..] = path else {
        return Ok(new);
    };
    let part = child(form, *number).unwrap();
    let part = build(alloc, part, rest, new)?;
    with_child(alloc, form, *number, part)
}

// The formula with another child of this number.
#[tactic(auto, using(crate::proofs::Paths::ranges))]
fn with_child(alloc: Global, form: &Form, number: u32, part: Form) -> Result<Form, Memory>
    requires place { IsSome (child form.now number) }
    requires small { formula_size (with_child form.now number part) < 2 ^ 32 }
    ensures { IfOk result (λ f. f ≡ with_child form.now number part) }
{
    match form.view() {
        View::Un(op, _) => Form::make(alloc, Part::Un(op, part)),
        View::Bin(op, _, right) if number == 1 => {
            Form::make(alloc, Part::Bin(op, part, right.copy(alloc)?))
        }
        View::Bin(op, left, _) => Form::make(alloc, Part::Bin(op, left.copy(alloc)?, part)),
        View::Compr(ranges, body) => {
            let ranges = with_range(alloc, ranges, number, part)?;
            Form::make(alloc, Part::Compr(ranges, body.copy(alloc)?))
        }
        View::Lam(ranges, body, value) => {
            let ranges = with_range(alloc, ranges, number, part)?;
            Form::make(
                alloc,
                Part::Lam(ranges, body.copy(alloc)?, value.copy(alloc)?),
            )
        }
        _ => form.copy(alloc),
    }
}

// The formulas with another one of this number.
fn with_range(alloc: Global, ranges: &[Form], number: u32, range: Form) -> Result<Vec<Form>, Memory>
    requires { IsSome (numbered_item ranges.now number) }
    ensures { IfOk result (λ fs. fs.items ≡ with_item ranges.now number range) }
{
    let mut ranges = Form::copy_all(ranges, alloc)?;
    ranges[number as usize - 1] = range;
    Ok(ranges)
}

// The child of this number.
#[tactic(auto, using(crate::proofs::Paths::ranges))]
fn child<'a>(form: &'a Form, number: u32) -> Option<&'a Form>
    ensures { option_copied result ≡ child form.now number }
{
    match form.view() {
        View::Un(_, operand) if number == 1 => Some(operand),
        View::Bin(_, left, _) if number == 1 => Some(left),
        View::Bin(_, _, right) if number == 2 => Some(right),
        View::Compr(ranges, _) => numbered(ranges, number),
        View::Lam(ranges, _, _) => numbered(ranges, number),
        _ => None,
    }
}

/// The formula of this number, counted from 1; None where there is none. Takes no memory.
pub fn numbered(forms: &[Form], number: u32) -> Option<&Form>
    ensures { option_copied result ≡ numbered_item forms.now number }
{
    let index = number.checked_sub(1)?;
    forms.get(index as usize)
}
