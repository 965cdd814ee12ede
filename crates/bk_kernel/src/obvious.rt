// Sequents that need no proof.

ghost use Rattle.std.specs.Prelude.{◌≡◌, int_lt, int_le};
ghost use Rattle.std.specs.Ordering.{int_eq};
ghost use Rattle.std.specs.List.{list_any};
ghost use Rattle.bk_arith.specs.Same.{is_same};
ghost use Rattle.bk_kernel.specs.Obvious.{both_pass, has_all, has_number, holds_plainly, is_plain, is_obvious};

use bk_arith::closed;
use bk_form::{BinOp, Domain, Form, View};
use bk_seq::Sequent;

/// Whether the sequent needs no proof: its goal is a hypothesis, is `E = E`, is `E : N` with N BOOL, INTEGER or an
/// enumerated set, or is a true comparison or membership of closed sums. Takes no memory.
pub fn is_obvious(sequent: &Sequent) -> bool
    ensures { result ≡ is_obvious sequent.now.hyps.items sequent.now.goal }
{
    is_among(&sequent.goal, &sequent.hyps) || is_plain(&sequent.goal)
}

// Whether the formula is one of the list.
fn is_among(form: &Form, list: &[Form]) -> bool
    ensures { result ≡ list_any (is_same form.now) list.now }
{
    list.iter().any(|other| same(form, other))
}

/// Whether the two are one formula.
pub(crate) fn same(left: &Form, right: &Form) -> bool
    ensures { result ≡ is_same left.now right.now }
{
    left.equal(right)
}

// Whether the predicate is obvious by itself.
fn is_plain(form: &Form) -> bool
    ensures { result ≡ is_plain form.now }
{
    match form.view() {
        View::Bin(op, left, right) => holds_plainly(op, left, right),
        _ => false,
    }
}

fn holds_plainly(op: BinOp, left: &Form, right: &Form) -> bool
    ensures { result ≡ holds_plainly op left.now right.now }
{
    match op {
        BinOp::Eq => same(left, right) || are_equal(closed(left), closed(right)),
        BinOp::Lt => is_less(closed(left), closed(right)),
        BinOp::Le => is_at_most(closed(left), closed(right)),
        BinOp::In => has_all(right) || has_number(closed(left), right),
        _ => false,
    }
}

fn are_equal(left: Option<i128>, right: Option<i128>) -> bool
    ensures { result ≡ both_pass int_eq left right }
{
    match (left, right) {
        (Some(a), Some(b)) => a == b,
        _ => false,
    }
}

fn is_less(left: Option<i128>, right: Option<i128>) -> bool
    ensures { result ≡ both_pass int_lt left right }
{
    match (left, right) {
        (Some(a), Some(b)) => a < b,
        _ => false,
    }
}

fn is_at_most(left: Option<i128>, right: Option<i128>) -> bool
    ensures { result ≡ both_pass int_le left right }
{
    match (left, right) {
        (Some(a), Some(b)) => a <= b,
        _ => false,
    }
}

/// Whether it names a set that has every value of a type.
pub(crate) fn has_all(form: &Form) -> bool
    ensures { result ≡ has_all form.now }
{
    match form.view() {
        View::Name(Domain::Integer | Domain::Bool | Domain::Enum(_)) => true,
        _ => false,
    }
}

// Whether the number is there, and in the set of numbers.
fn has_number(number: Option<i128>, form: &Form) -> bool
    ensures { result ≡ has_number number form.now }
{
    match form.view() {
        View::Name(Domain::Natural) => is_at_most(Some(0), number),
        View::Name(Domain::Natural1) => is_at_most(Some(1), number),
        View::Bin(BinOp::Range, low, high) => {
            is_at_most(closed(low), number) && is_at_most(number, closed(high))
        }
        _ => false,
    }
}
