//! What comparisons of whole numbers say: facts, each that a term is at least 0.

ghost use Rattle.std.specs.Prelude.{◌≡◌, MatchOption, None, Some};
ghost use Rattle.bk_arith.specs.Comparison.{terms_of_member, terms_of_comparison, terms_of_denied, terms_of_hypothesis, terms_of_goal, at_most, below};
ghost use Rattle.bk_arith.specs.Layout.{term_of, terms_in};

use bk_form::{BinOp, Domain, Form, UnOp, View};

/// A term that is at least 0: `upper`, less `lower` where there is one, less 1 where it is strict.
#[derive(Clone, Copy)]
pub struct Term<'a> {
    pub upper: &'a Form,
    pub lower: Option<&'a Form>,
    pub strict: bool,
}

/// The facts that one formula states, in order.
#[derive(Clone, Copy)]
pub enum Stated<'a> {
    Nothing,
    One(Term<'a>),
    Two(Term<'a>, Term<'a>),
}

/// What a hypothesis states; None where it is no comparison that is read.
pub fn hypothesis(form: &Form) -> Option<Stated<'_>>
    ensures { MatchOption result (terms_of_hypothesis form.now ≡ None)
        (λ s. terms_of_hypothesis form.now ≡ Some (terms_in s)) }
{
    match form.view() {
        View::Bin(op, left, right) => comparison(op, left, right),
        View::Un(UnOp::Not, operand) => denied(operand),
        _ => None,
    }
}

/// What a goal states where it is not so; None where it is no comparison that is read.
pub fn negated_goal(form: &Form) -> Option<Stated<'_>>
    ensures { MatchOption result (terms_of_goal form.now ≡ None) (λ s. terms_of_goal form.now ≡ Some (terms_in s)) }
{
    match form.view() {
        View::False => Some(Stated::Nothing),
        _ => denied(form),
    }
}

fn comparison<'a>(op: BinOp, left: &'a Form, right: &'a Form) -> Option<Stated<'a>>
    ensures { MatchOption result (terms_of_comparison op left.now right.now ≡ None)
        (λ s. terms_of_comparison op left.now right.now ≡ Some (terms_in s)) }
{
    match op {
        BinOp::Le => Some(Stated::One(at_most(left, right))),
        BinOp::Lt => Some(Stated::One(below(left, right))),
        BinOp::Eq => Some(Stated::Two(at_most(left, right), at_most(right, left))),
        BinOp::In => member(left, right),
        _ => None,
    }
}

fn member<'a>(element: &'a Form, domain: &'a Form) -> Option<Stated<'a>>
    ensures { MatchOption result (terms_of_member element.now domain.now ≡ None)
        (λ s. terms_of_member element.now domain.now ≡ Some (terms_in s)) }
{
    match domain.view() {
        View::Name(Domain::Natural) => Some(Stated::One(number(element, false))),
        View::Name(Domain::Natural1) => Some(Stated::One(number(element, true))),
        View::Bin(BinOp::Range, low, high) => {
            Some(Stated::Two(at_most(low, element), at_most(element, high)))
        }
        _ => None,
    }
}

// What is so where the comparison is not.
fn denied(form: &Form) -> Option<Stated<'_>>
    ensures { MatchOption result (terms_of_denied form.now ≡ None) (λ s. terms_of_denied form.now ≡ Some (terms_in s)) }
{
    match form.view() {
        View::Bin(BinOp::Le, left, right) => Some(Stated::One(below(right, left))),
        View::Bin(BinOp::Lt, left, right) => Some(Stated::One(at_most(right, left))),
        _ => None,
    }
}

// That `left <= right`.
fn at_most<'a>(left: &'a Form, right: &'a Form) -> Term<'a>
    ensures { term_of result ≡ at_most left.now right.now }
{
    Term {
        upper: right,
        lower: Some(left),
        strict: false,
    }
}

// That `left < right`.
fn below<'a>(left: &'a Form, right: &'a Form) -> Term<'a>
    ensures { term_of result ≡ below left.now right.now }
{
    Term {
        upper: right,
        lower: Some(left),
        strict: true,
    }
}

// That the term is at least 0, or at least 1.
fn number(form: &Form, strict: bool) -> Term<'_>
    ensures { result ≡ record { upper = form.entry; lower = None; strict = strict } }
{
    Term {
        upper: form,
        lower: None,
        strict,
    }
}
