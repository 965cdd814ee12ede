//! That executed expressions fit the machine.

ghost use Rattle.std.specs.Prelude.{◌≡◌, Err, IfOk, OnOk};
ghost use Rattle.std.specs.Option.{option_copied};
ghost use Rattle.bk_form.specs.Formula.{literal};
ghost use Rattle.bk_form.specs.Defined.{array_of};
ghost use Rattle.bk_bind.specs.Limits.{IsWithinLimits};
ghost use Rattle.bk_bind.specs.declared.error.BindFault.TheVariants.{TooLarge};
ghost use Rattle.bk_wd.specs.Checked.{in_machine, in_domain, index_check, checked_own, checked};

use crate::joining::{all_over, both, nothing};
use crate::operands::{has_remainder, not_zero, sides_asked};
use bk_bind::{BindFault, binary, bounded};
use bk_form::{ArrayDomain, ArrayRow, Arrays, BinOp, Form, Part, View};
use bk_io::Memory;
use std::alloc::Global;

/// Chk(form): that each sum, difference and product that is met from left to right is from MININT to MAXINT, that each array
/// is read at one of its indices, and that the operands of `/` and `mod` are inside their domains. The right side of `&` and
/// `or` counts only where the left side leaves it open. Of comprehensions and lambdas, which are never executed, nothing is
/// asked, nor of a function that is none of the arrays.
pub fn checked(alloc: Global, form: &Form, arrays: &Arrays) -> Result<Form, BindFault>
    ensures value { IfOk result (λ f. f ≡ checked arrays.now form.now) }
    ensures within { OnOk result (IsWithinLimits (checked arrays.now form.now)) }
    ensures too_large { result ≡ Err TooLarge → IsWithinLimits (checked arrays.now form.now) → ⊥ }
{
    bounded(condition(alloc, arrays, form)?)
}

// The condition, which may be larger than the limits where it is a part of the formula.
#[tactic(auto, using(crate::proofs::Within::conditions_within))]
fn condition(alloc: Global, arrays: &Arrays, form: &Form) -> Result<Form, BindFault>
    ensures value { IfOk result (λ f. f ≡ checked arrays.now form.now) }
    ensures too_large { result ≡ Err TooLarge → IsWithinLimits (checked arrays.now form.now) → ⊥ }
{
    match form.view() {
        View::Un(_, operand) => condition(alloc, arrays, operand),
        View::Bin(op, left, right) => {
            let first = condition(alloc, arrays, left)?;
            let second = condition(alloc, arrays, right)?;
            let sides = sides_asked(alloc, op, left, first, second)?;
            both(alloc, sides, own_condition(alloc, arrays, op, left, right)?)
        }
        View::All(types, body) | View::Some(types, body) => {
            all_over(alloc, types, condition(alloc, arrays, body)?)
        }
        _ => Ok(nothing(alloc)?),
    }
}

// The operator's own condition: an operator is an arm here and a line of the definition.
#[tactic(auto, using(bk_bind::proofs::Within::parts_within))]
fn own_condition(
    alloc: Global,
    arrays: &Arrays,
    op: BinOp,
    left: &Form,
    right: &Form,
) -> Result<Form, BindFault>
    ensures value { IfOk result (λ f. f ≡ checked_own arrays.now op left.now right.now) }
    ensures too_large { result ≡ Err TooLarge → IsWithinLimits (checked_own arrays.now op left.now right.now) → ⊥ }
{
    match op {
        BinOp::Add | BinOp::Sub | BinOp::Mul => {
            let operation = binary(alloc, op, left.copy(alloc)?, right.copy(alloc)?)?;
            in_machine(alloc, arrays.max(), operation)
        }
        BinOp::Div => not_zero(alloc, right),
        BinOp::Mod => has_remainder(alloc, left, right),
        BinOp::Apply => index_check(alloc, array_of(arrays, left), right),
        _ => Ok(nothing(alloc)?),
    }
}

// `MININT <= form & form <= MAXINT`
#[tactic(auto, using(bk_bind::proofs::Within::parts_within))]
fn in_machine(alloc: Global, max: i64, form: Form) -> Result<Form, BindFault>
    ensures value { IfOk result (λ f. f ≡ in_machine max form) }
    ensures too_large { result ≡ Err TooLarge → IsWithinLimits (in_machine max form) → ⊥ }
{
    let most = i128::from(max);
    let lower = number(alloc, -most)?;
    let upper = number(alloc, most)?;
    let from = binary(alloc, BinOp::Le, lower, form.copy(alloc)?)?;
    let to = binary(alloc, BinOp::Le, form, upper)?;
    binary(alloc, BinOp::And, from, to)
}

// The array that a function is, if it is one.
fn array_of<'a>(arrays: &'a Arrays, function: &Form) -> Option<&'a ArrayRow>
    ensures { option_copied result ≡ array_of arrays.now function.now }
{
    match function.view() {
        View::Var(number) => arrays.row(number),
        _ => None,
    }
}

/// What an array asks of the index at which it is read or written: that it is from the least to the greatest index, where
/// they are numbers. A function that is no array asks nothing.
pub fn index_check(alloc: Global, row: Option<&ArrayRow>, index: &Form) -> Result<Form, BindFault>
    ensures value { IfOk result (λ f. f ≡ index_check (option_copied row.entry) index.now) }
    ensures too_large { result ≡ Err TooLarge → IsWithinLimits (index_check (option_copied row.entry) index.now) → ⊥ }
{
    match row {
        Some(row) => in_domain(alloc, row.domain, index),
        None => Ok(nothing(alloc)?),
    }
}

// That the index is one of the array's.
#[tactic(auto, using(bk_bind::proofs::Within::parts_within))]
fn in_domain(alloc: Global, domain: ArrayDomain, index: &Form) -> Result<Form, BindFault>
    ensures value { IfOk result (λ f. f ≡ in_domain domain index.now) }
    ensures too_large { result ≡ Err TooLarge → IsWithinLimits (in_domain domain index.now) → ⊥ }
{
    match domain {
        ArrayDomain::Interval { low, high } => {
            let low = number(alloc, i128::from(low))?;
            let high = number(alloc, i128::from(high))?;
            let from = binary(alloc, BinOp::Le, low, index.copy(alloc)?)?;
            let to = binary(alloc, BinOp::Le, index.copy(alloc)?, high)?;
            binary(alloc, BinOp::And, from, to)
        }
        ArrayDomain::Bool | ArrayDomain::Set(_) => Ok(nothing(alloc)?),
    }
}

// The literal of a number.
fn number(alloc: Global, value: i128) -> Result<Form, Memory>
    ensures { IfOk result (λ f. f ≡ literal value) }
{
    Form::make(alloc, Part::Int(value))
}
