//! The cases of a term in an interval of literals.

ghost use Rattle.std.specs.Prelude.{◌≡◌, ◌⊎◌, ◌<◌, ◌^◌, ◌+ℤ◌, ◌-ℤ◌, pos, int_le, true, Some, None, IfOk, IfErr};
ghost use Rattle.bk_form.specs.Formula.{literal, binary, formula_size};
ghost use Rattle.bk_form.specs.Operators.{count_of};
ghost use Rattle.bk_form.specs.declared.operator.BinOp.TheVariants.{Eq};
ghost use Rattle.bk_arith.specs.Cases.{literals_from, equations, interval_cases};

use crate::error::ArithFault;
use bk_form::{BinOp, Form, Part, View};
use bk_io::Memory;
use std::alloc::Global;

/// The greatest difference of the ends of an interval that has cases.
const WIDEST: i128 = 63;

/// The equations `E = a` to `E = b` of a membership `E : a .. b` of literals. `Cases` comes exactly where the formula is none, or
/// where `b - a` is more than 63.
pub fn cases(alloc: Global, hyp: &Form) -> Result<Vec<Form>, ArithFault>
    ensures value { IfOk result (λ list. interval_cases hyp.now ≡ Some list.items) }
    ensures fault { IfErr result (λ e. (e ≡ ArithFault.Memory) ⊎
        ((e ≡ ArithFault.Cases) × (interval_cases hyp.now ≡ None))) }
{
    let _nodes = hyp.size();
    let View::Bin(BinOp::In, element, set) = hyp.view() else {
        return Err(ArithFault::Cases);
    };
    let View::Bin(BinOp::Range, low, high) = set.view() else {
        return Err(ArithFault::Cases);
    };
    let View::Int(first) = low.view() else {
        return Err(ArithFault::Cases);
    };
    let View::Int(last) = high.view() else {
        return Err(ArithFault::Cases);
    };
    if !is_short(first, last) {
        return Err(ArithFault::Cases);
    }
    Ok(equations_between(alloc, element, first, last)?)
}

// Whether the interval from the first to the last number has at most 64 numbers.
fn is_short(first: i128, last: i128) -> bool
    ensures { result ≡ int_le (last -ℤ first) (pos 63) }
{
    match last.checked_sub(first) {
        Some(width) => width <= WIDEST,
        None => last < first,
    }
}

// That the term is equal to each of the numbers from the first to the last, which is at most 63 more.
fn equations_between(
    alloc: Global,
    element: &Form,
    first: i128,
    last: i128,
) -> Result<Vec<Form>, Memory>
    requires short { int_le (last -ℤ first) (pos 63) ≡ true }
    requires small { formula_size (binary Eq element.now (literal (pos 0))) < 2 ^ 32 }
    ensures { IfOk result (λ list. list.items ≡
        equations element.now (literals_from first (count_of ((last +ℤ pos 1) -ℤ first)))) }
{
    let mut list = Vec::new(alloc);
    if last < first {
        return Ok(list);
    }
    let count = (last - first) as u32 + 1;
    for offset in 0..count {
        let number = Form::make(alloc, Part::Int(first + i128::from(offset)))?;
        list.push(Form::make(alloc, Part::Bin(BinOp::Eq, element.copy(alloc)?, number))?)?;
    }
    Ok(list)
}
