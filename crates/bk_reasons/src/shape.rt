//! Formulas that are not of the form that a rule asks.

use crate::words::Words;
use bk_form::{BinOp, Domain, Form, Ty, TyView, UnOp, View};
use bk_io::Memory;
use bk_seq::{Sequent, numbered};

/// A form that a rule asks of a formula.
#[derive(Clone, Copy, PartialEq, Eq)]
pub(crate) enum Shape {
    Truth,
    Falsity,
    Conjunction,
    Disjunction,
    Implication,
    Equivalence,
    Negation,
    ForAll,
    Exists,
    Equation,
    OverNaturals,
}

impl Shape {
    /// How it is written.
    pub(crate) fn text(self) -> &'static [u8] {
        match self {
            Shape::Truth => b"btrue",
            Shape::Falsity => b"bfalse",
            Shape::Conjunction => b"P & Q",
            Shape::Disjunction => b"P or Q",
            Shape::Implication => b"P => Q",
            Shape::Equivalence => b"P <=> Q",
            Shape::Negation => b"not(P)",
            Shape::ForAll => b"!($1:T).(P)",
            Shape::Exists => b"#($1:T).(P)",
            Shape::Equation => b"E = F",
            Shape::OverNaturals => b"!($1:INTEGER).($1 : NATURAL => P)",
        }
    }

    /// Whether a formula is so.
    pub(crate) fn is_of(self, form: &Form) -> bool {
        match form.view() {
            View::True => self == Shape::Truth,
            View::False => self == Shape::Falsity,
            View::Un(op, _) => op == UnOp::Not && self == Shape::Negation,
            View::Bin(op, _, _) => self.is_of_operator(op),
            View::All(types, body) => {
                self == Shape::ForAll
                    || self == Shape::OverNaturals && is_over_naturals(types, body)
            }
            View::Some(_, _) => self == Shape::Exists,
            _ => false,
        }
    }

    fn is_of_operator(self, op: BinOp) -> bool {
        match op {
            BinOp::And => self == Shape::Conjunction,
            BinOp::Or => self == Shape::Disjunction,
            BinOp::Imp => self == Shape::Implication,
            BinOp::Iff => self == Shape::Equivalence,
            BinOp::Eq => self == Shape::Equation,
            _ => false,
        }
    }
}

// Whether a quantifier over these types and this body is one over the natural numbers.
fn is_over_naturals(types: &[Ty], body: &Form) -> bool {
    let [only] = types else {
        return false;
    };
    let TyView::Int = only.view() else {
        return false;
    };
    let View::Bin(BinOp::Imp, left, _) = body.view() else {
        return false;
    };
    let View::Bin(BinOp::In, member, domain) = left.view() else {
        return false;
    };
    matches!(member.view(), View::Bound(0)) && matches!(domain.view(), View::Name(Domain::Natural))
}

/// Says that the goal is of another form, and answers whether it is.
pub(crate) fn goal_is_no(
    words: &mut Words<'_>,
    sequent: &Sequent,
    shape: Shape,
) -> Result<bool, Memory> {
    if shape.is_of(&sequent.goal) {
        return Ok(false);
    }
    words.say(b"the goal is not of the form ")?;
    words.say(shape.text())?;
    words.say(b": it is ")?;
    words.form(&sequent.goal)?;
    Ok(true)
}

/// Says that a hypothesis is not there, or of another form, and answers whether that is so.
pub(crate) fn hypothesis_is_no(
    words: &mut Words<'_>,
    sequent: &Sequent,
    number: u32,
    shape: Shape,
) -> Result<bool, Memory> {
    let Some(hypothesis) = numbered(&sequent.hyps, number) else {
        words.no_hypothesis(sequent, number)?;
        return Ok(true);
    };
    if shape.is_of(hypothesis) {
        return Ok(false);
    }
    words.hypothesis(number)?;
    words.say(b" is not of the form ")?;
    words.say(shape.text())?;
    words.say(b": it is ")?;
    words.form(hypothesis)?;
    Ok(true)
}
