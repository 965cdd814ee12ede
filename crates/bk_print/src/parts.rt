// The parts of rules, as they stand after their words.

ghost use Rattle.std.specs.Prelude.{◌≡◌};
ghost use Rattle.bk_print.specs.Written as written;
ghost use Rattle.bk_print.specs.Held.{parts_in};

use bk_form::Form;
use bk_kernel::{Place, Rule};
use bk_lin::Line;

/// A part of a rule.
#[derive(Clone, Copy)]
pub(crate) enum Part<'a> {
    /// The number of a hypothesis.
    Number(u32),
    Term(&'a Form),
    Terms(&'a [Form]),
    Place(&'a Place),
    /// No place, where there may be one.
    NoPlace,
    /// Variables, each with its type.
    Names(&'a [u32]),
    /// A law by its number, and the terms that it takes.
    Law(u16, &'a [Form]),
    /// The numbers of hypotheses, and the lines of a certificate.
    Certificate(&'a [u32], &'a [Line]),
}

/// The parts of a rule.
#[derive(Clone, Copy)]
pub(crate) enum Parts<'a> {
    None,
    One(Part<'a>),
    Two(Part<'a>, Part<'a>),
}

/// Those of a rule.
pub(crate) fn parts_of(rule: &Rule) -> Parts<'_>
    ensures { parts_in result ≡ written.parts_of rule.now }
{
    match rule {
        Rule::Hyp(number) => Parts::One(Part::Number(*number)),
        Rule::True => Parts::None,
        Rule::Same => Parts::None,
        Rule::Eval(None) => Parts::One(Part::NoPlace),
        Rule::Eval(Some(place)) => Parts::One(Part::Place(place)),
        Rule::False(number) => Parts::One(Part::Number(*number)),
        Rule::Absurd(one, other) => Parts::Two(Part::Number(*one), Part::Number(*other)),
        Rule::And => Parts::None,
        Rule::Iff => Parts::None,
        Rule::Imp => Parts::None,
        Rule::Not => Parts::None,
        Rule::Left => Parts::None,
        Rule::Right => Parts::None,
        Rule::Or => Parts::None,
        Rule::Contra => Parts::None,
        Rule::Fix(names) => Parts::One(Part::Names(names)),
        Rule::UseTerms(terms) => Parts::One(Part::Terms(terms)),
        Rule::Split(number) => Parts::One(Part::Number(*number)),
        Rule::Cases(number) => Parts::One(Part::Number(*number)),
        Rule::Apply(number) => Parts::One(Part::Number(*number)),
        Rule::Inst(number, terms) => Parts::Two(Part::Number(*number), Part::Terms(terms)),
        Rule::OpenSome(number, names) => Parts::Two(Part::Number(*number), Part::Names(names)),
        Rule::Cut(form) => Parts::One(Part::Term(form)),
        Rule::Case(form) => Parts::One(Part::Term(form)),
        Rule::Drop(number) => Parts::One(Part::Number(*number)),
        Rule::Eq(number, place) => Parts::Two(Part::Number(*number), Part::Place(place)),
        Rule::Qe(number, place) => Parts::Two(Part::Number(*number), Part::Place(place)),
        Rule::Law { law, picks, place } => {
            Parts::Two(Part::Law(*law, picks), Part::Place(place))
        }
        Rule::Wal { law, picks, place } => {
            Parts::Two(Part::Law(*law, picks), Part::Place(place))
        }
        Rule::TypeOf(place) => Parts::One(Part::Place(place)),
        Rule::Neg(place) => Parts::One(Part::Place(place)),
        Rule::Mem(place) => Parts::One(Part::Place(place)),
        Rule::Val(place) => Parts::One(Part::Place(place)),
        Rule::Ext(place) => Parts::One(Part::Place(place)),
        Rule::Sub(place) => Parts::One(Part::Place(place)),
        Rule::Ex(place) => Parts::One(Part::Place(place)),
        Rule::Pair(form) => Parts::One(Part::Term(form)),
        Rule::Elems(form) => Parts::One(Part::Term(form)),
        Rule::Interval(number) => Parts::One(Part::Number(*number)),
        Rule::Induct => Parts::None,
        Rule::Poly => Parts::None,
        Rule::Lin { facts, lines } => Parts::One(Part::Certificate(facts, lines)),
        Rule::Unread => Parts::None,
    }
}
