//! Sums of literals.

ghost use Rattle.std.specs.Prelude.{◌≡◌};
ghost use Rattle.bk_arith.specs.ClosedSum.{negative_of, sum_of, closed_sum};

use bk_form::{BinOp, Form, UnOp, View};

/// The value of a sum of literals by `+`, `-`, `*` and unary minus, where each value on the way lies within `i128`;
/// None of any other formula. Takes no memory.
pub fn closed(form: &Form) -> Option<i128>
    ensures { result ≡ closed_sum form.now }
{
    match form.view() {
        View::Int(value) => Some(value),
        View::Un(op, operand) => negative(op, closed(operand)),
        View::Bin(op, left, right) => total(op, closed(left), closed(right)),
        _ => None,
    }
}

fn negative(op: UnOp, operand: Option<i128>) -> Option<i128>
    ensures { result ≡ negative_of op operand }
{
    match (op, operand) {
        (UnOp::Neg, Some(value)) => value.checked_neg(),
        _ => None,
    }
}

fn total(op: BinOp, left: Option<i128>, right: Option<i128>) -> Option<i128>
    ensures { result ≡ sum_of op left right }
{
    match (op, left, right) {
        (BinOp::Add, Some(a), Some(b)) => a.checked_add(b),
        (BinOp::Sub, Some(a), Some(b)) => a.checked_sub(b),
        (BinOp::Mul, Some(a), Some(b)) => a.checked_mul(b),
        _ => None,
    }
}
