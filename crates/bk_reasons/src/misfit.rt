//! Why a rule does not fit.

use crate::certificate::certificate_is_wrong;
use crate::change::Change;
use crate::closing::{
    goal_is_other, hypothesis_is_false, is_denied, is_undecided, sides_differ, sums_differ,
};
use crate::naming::{names_do_not_fit, no_cases, no_predicate, no_type_of, terms_do_not_fit};
use crate::place::place_does_not_fit;
use crate::shape::{Shape, goal_is_no, hypothesis_is_no};
use crate::within::say_limits;
use crate::words::Words;
use bk_io::Memory;
use bk_kernel::{Place, Rule};
use bk_seq::Sequent;

/// Says why the rule is no step on the sequent. Of a rule that is one, that what it makes does not type or is too large.
pub fn write_misfit(words: &mut Words<'_>, sequent: &Sequent, rule: &Rule) -> Result<(), Memory> {
    if of_goal(words, sequent, rule)? || of_hypothesis(words, sequent, rule)? {
        return Ok(());
    }
    if of_terms(words, sequent, rule)? || of_place(words, sequent, rule)? {
        return Ok(());
    }
    words.say(b"what the rule makes is not a predicate, or it exceeds ")?;
    say_limits(words)
}

// Of rules that look at the goal alone.
fn of_goal(words: &mut Words<'_>, sequent: &Sequent, rule: &Rule) -> Result<bool, Memory> {
    match rule {
        Rule::True => goal_is_no(words, sequent, Shape::Truth),
        Rule::Same => sides_differ(words, sequent),
        Rule::Eval(None) => is_undecided(words, &sequent.goal, b"the goal"),
        Rule::And => goal_is_no(words, sequent, Shape::Conjunction),
        Rule::Iff => goal_is_no(words, sequent, Shape::Equivalence),
        Rule::Imp => goal_is_no(words, sequent, Shape::Implication),
        Rule::Not => goal_is_no(words, sequent, Shape::Negation),
        Rule::Left | Rule::Right | Rule::Or => goal_is_no(words, sequent, Shape::Disjunction),
        Rule::Induct => goal_is_no(words, sequent, Shape::OverNaturals),
        Rule::Poly => sums_differ(words, sequent),
        _ => Ok(false),
    }
}

// Of rules that look at hypotheses.
fn of_hypothesis(words: &mut Words<'_>, sequent: &Sequent, rule: &Rule) -> Result<bool, Memory> {
    match rule {
        Rule::Hyp(number) => goal_is_other(words, sequent, *number),
        Rule::False(number) => hypothesis_is_false(words, sequent, *number),
        Rule::Absurd(number, denial) => is_denied(words, sequent, *number, *denial),
        Rule::Split(number) => hypothesis_is_no(words, sequent, *number, Shape::Conjunction),
        Rule::Cases(number) => hypothesis_is_no(words, sequent, *number, Shape::Disjunction),
        Rule::Apply(number) => hypothesis_is_no(words, sequent, *number, Shape::Implication),
        Rule::Interval(number) => no_cases(words, sequent, *number),
        Rule::Lin { facts, lines } => certificate_is_wrong(words, sequent, facts, lines),
        Rule::Drop(number) => {
            words.no_hypothesis(sequent, *number)?;
            Ok(true)
        }
        _ => Ok(false),
    }
}

// Of rules that take terms or names.
fn of_terms(words: &mut Words<'_>, sequent: &Sequent, rule: &Rule) -> Result<bool, Memory> {
    match rule {
        Rule::Fix(names) => {
            Ok(
                goal_is_no(words, sequent, Shape::ForAll)?
                    || names_do_not_fit(words, sequent, &sequent.goal, names)?,
            )
        }
        Rule::UseTerms(terms) => {
            Ok(
                goal_is_no(words, sequent, Shape::Exists)?
                    || terms_do_not_fit(words, &sequent.goal, terms)?,
            )
        }
        Rule::Inst(number, terms) => {
            if hypothesis_is_no(words, sequent, *number, Shape::ForAll)? {
                return Ok(true);
            }
            match bk_seq::numbered(&sequent.hyps, *number) {
                Some(hypothesis) => terms_do_not_fit(words, hypothesis, terms),
                None => Ok(false),
            }
        }
        Rule::OpenSome(number, names) => {
            if hypothesis_is_no(words, sequent, *number, Shape::Exists)? {
                return Ok(true);
            }
            match bk_seq::numbered(&sequent.hyps, *number) {
                Some(hypothesis) => names_do_not_fit(words, sequent, hypothesis, names),
                None => Ok(false),
            }
        }
        Rule::Cut(form) | Rule::Case(form) => no_predicate(words, form),
        Rule::Pair(term) => no_type_of(words, term, true),
        Rule::Elems(term) => no_type_of(words, term, false),
        _ => Ok(false),
    }
}

// Of rules that change what stands at a place.
fn of_place(words: &mut Words<'_>, sequent: &Sequent, rule: &Rule) -> Result<bool, Memory> {
    match change_of(rule) {
        Some((change, place)) => place_does_not_fit(words, sequent, change, place),
        None => Ok(false),
    }
}

// The change that a rule makes, and where.
fn change_of(rule: &Rule) -> Option<(Change<'_>, &Place)> {
    match rule {
        Rule::Eval(Some(place)) => Some((Change::Deciding, place)),
        Rule::Eq(number, place) => Some((Change::Equation(*number, true), place)),
        Rule::Qe(number, place) => Some((Change::Equation(*number, false), place)),
        Rule::Law { law, picks, place } => Some((Change::Law(*law, picks, true), place)),
        Rule::Wal { law, picks, place } => Some((Change::Law(*law, picks, false), place)),
        Rule::TypeOf(place) => Some((Change::Typing, place)),
        Rule::Neg(place) => Some((Change::Negating, place)),
        Rule::Mem(place) => Some((Change::Belonging, place)),
        Rule::Val(place) => Some((Change::Applying, place)),
        Rule::Ext(place) => Some((Change::Extending, place)),
        Rule::Sub(place) => Some((Change::Including, place)),
        Rule::Ex(place) => Some((Change::Witnessing, place)),
        _ => None,
    }
}
