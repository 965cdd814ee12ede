//! Closed comparisons and memberships.

ghost use Rattle.std.specs.Prelude.{◌≡◌, int_lt, int_le};
ghost use Rattle.std.specs.Ordering.{int_eq};
ghost use Rattle.bk_kernel.specs.Deciding.{compared, both_true, decided_in, decided_by, decided, equal_constants, is_yes};

use bk_arith::closed;
use bk_form::{BinOp, Domain, Form, View};

/// Whether a closed comparison or membership is true; None of any other formula.
pub(crate) fn decided(form: &Form) -> Option<bool>
    ensures { result ≡ decided form.now }
{
    match form.view() {
        View::Bin(op, left, right) => decided_by(op, left, right),
        _ => None,
    }
}

fn decided_by(op: BinOp, left: &Form, right: &Form) -> Option<bool>
    ensures { result ≡ decided_by op left.now right.now }
{
    match op {
        BinOp::Eq => are_equal(closed(left), closed(right)),
        BinOp::Lt => is_less(closed(left), closed(right)),
        BinOp::Le => is_at_most(closed(left), closed(right)),
        BinOp::In => decided_in(closed(left), right),
        _ => None,
    }
}

// Whether the number is in a set of numbers.
fn decided_in(number: Option<i128>, form: &Form) -> Option<bool>
    ensures { result ≡ decided_in number form.now }
{
    match form.view() {
        View::Name(Domain::Natural) => is_at_most(Some(0), number),
        View::Name(Domain::Natural1) => is_at_most(Some(1), number),
        View::Bin(BinOp::Range, low, high) => both_true(
            is_at_most(closed(low), number),
            is_at_most(number, closed(high)),
        ),
        _ => None,
    }
}

fn both_true(left: Option<bool>, right: Option<bool>) -> Option<bool>
    ensures { result ≡ both_true left right }
{
    match (left, right) {
        (Some(a), Some(b)) => Some(a && b),
        _ => None,
    }
}

fn are_equal(left: Option<i128>, right: Option<i128>) -> Option<bool>
    ensures { result ≡ compared int_eq left right }
{
    match (left, right) {
        (Some(a), Some(b)) => Some(a == b),
        _ => None,
    }
}

fn is_less(left: Option<i128>, right: Option<i128>) -> Option<bool>
    ensures { result ≡ compared int_lt left right }
{
    match (left, right) {
        (Some(a), Some(b)) => Some(a < b),
        _ => None,
    }
}

fn is_at_most(left: Option<i128>, right: Option<i128>) -> Option<bool>
    ensures { result ≡ compared int_le left right }
{
    match (left, right) {
        (Some(a), Some(b)) => Some(a <= b),
        _ => None,
    }
}

/// Whether two elements, or two truth values, are equal; None of any other formulas.
pub(crate) fn equal_constants(left: &Form, right: &Form) -> Option<bool>
    ensures { result ≡ equal_constants left.now right.now }
{
    match (left.view(), right.view()) {
        (View::Bool(a), View::Bool(b)) => Some(a == b),
        (
            View::Elem { set, index },
            View::Elem {
                set: other,
                index: place,
            },
        ) => { Some(set == other && index == place) }
        _ => None,
    }
}

/// Whether it is known and true.
pub(crate) fn is_yes(answer: Option<bool>) -> bool
    ensures { result ≡ is_yes answer }
{
    match answer {
        Some(truth) => truth,
        None => false,
    }
}
