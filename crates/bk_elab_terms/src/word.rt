// What constant words read as, and what words and a minus sign make of the part after them.

ghost use Rattle.std.specs.Prelude.{◌≡◌, IfOk};
ghost use Rattle.bk_val.specs.ValueType.{int_type, bool_type, set_type};
ghost use Rattle.bk_form.specs.Formula.{formula_size, literal, truth_value, named};
ghost use Rattle.bk_form.specs.Codes.FormView.{made};
ghost use Rattle.bk_raw.specs.Meaning.Outcome.{plainly, giving, ranging, of_one, ask, ask_domain};
ghost use Rattle.bk_raw.specs.Meaning.OperatorReadings as meant;
ghost use Rattle.bk_elab_terms.specs.Shown.{shown_outcome, IsRead};

use crate::made::{binary, unary};
use crate::outcome::{Asked, Step, Told, no_type};
use bk_form::{BinOp, Domain, Form, Part, Ty, UnOp};
use bk_io::Memory;
use bk_raw::{Constant, WordOp};
use std::alloc::Global;

// What a constant word at a byte reads as, where this is MAXINT.
pub(crate) fn constant(alloc: Global, max: i64, at: usize, word: Constant) -> Result<Step, Memory>
    ensures { IfOk result (λ s. IsRead s (meant.constant_reading max at word)) }
{
    match word {
        Constant::Bool => set_of(alloc, Part::Name(Domain::Bool), Ty::boolean()),
        Constant::True => truth(alloc, true),
        Constant::False => truth(alloc, false),
        Constant::Integer => ranging(alloc, Domain::Integer, at),
        Constant::Natural => ranging(alloc, Domain::Natural, at),
        Constant::Natural1 => ranging(alloc, Domain::Natural1, at),
        Constant::Int => numbers_between(alloc, -i128::from(max), i128::from(max)),
        Constant::Nat => numbers_between(alloc, 0, i128::from(max)),
        Constant::Nat1 => numbers_between(alloc, 1, i128::from(max)),
        Constant::MaxInt => number(alloc, i128::from(max)),
        Constant::MinInt => number(alloc, -i128::from(max)),
        Constant::Btrue => Ok(Step::plain(Told::Holding(Form::make(alloc, Part::True)?))),
        Constant::Bfalse => Ok(Step::plain(Told::Holding(Form::make(alloc, Part::False)?))),
    }
}

// A literal.
pub(crate) fn number(alloc: Global, value: i128) -> Result<Step, Memory>
    ensures { IfOk result (λ s. IsRead s (giving (literal value) int_type)) }
{
    Ok(Step::giving(Form::make(alloc, Part::Int(value))?, Ty::int()))
}

// TRUE or FALSE.
fn truth(alloc: Global, value: bool) -> Result<Step, Memory>
    ensures { IfOk result (λ s. IsRead s (giving (truth_value value) bool_type)) }
{
    Ok(Step::giving(Form::make(alloc, Part::Bool(value))?, Ty::boolean()))
}

// A set that has a name and is a value, with the type of its elements.
fn set_of(alloc: Global, part: Part, elements: Ty) -> Result<Step, Memory>
    requires { formula_size (made part) ≡ 1 }
    ensures { IfOk result (λ s. IsRead s (giving (made part) (set_type elements))) }
{
    let set = Form::make(alloc, part)?;
    Ok(Step::giving(set, Ty::set(alloc, elements)?))
}

// A set of numbers that has a name and is no value.
fn ranging(alloc: Global, domain: Domain, at: usize) -> Result<Step, Memory>
    ensures { IfOk result (λ s. IsRead s (plainly (ranging (named domain) int_type at))) }
{
    let set = Form::make(alloc, Part::Name(domain))?;
    Ok(Step::plain(Told::Ranging(set, Ty::int(), at)))
}

// The interval from one number to another.
fn numbers_between(alloc: Global, low: i128, high: i128) -> Result<Step, Memory>
    ensures { IfOk result (λ s. IsRead s (meant.numbers_between low high)) }
{
    let low = Form::make(alloc, Part::Int(low))?;
    let high = Form::make(alloc, Part::Int(high))?;
    let interval = Form::make(alloc, Part::Bin(BinOp::Range, low, high))?;
    Ok(Step::giving(interval, Ty::set(alloc, Ty::int())?))
}

// What a word at a byte makes of the part after it, which stands at a byte of its own.
pub(crate) fn word(
    alloc: Global,
    op: WordOp,
    at: usize,
    place: usize,
    part: Told,
) -> Result<Step, Memory>
    ensures { IfOk result (λ s. IsRead s (meant.word_reading op at place (shown_outcome part))) }
{
    match op {
        WordOp::Not => negation(alloc, part),
        WordOp::BoolOf => truth_of(alloc, part),
        WordOp::Card => count(alloc, place, part),
        WordOp::Min => extreme(alloc, UnOp::Min, place, part),
        WordOp::Max => extreme(alloc, UnOp::Max, place, part),
        WordOp::Dom => domain(alloc, place, part),
        WordOp::Ran => range(alloc, place, part),
        WordOp::Id => identity(alloc, place, part),
        WordOp::Succ => stepped(alloc, BinOp::Add, place, part),
        WordOp::Pred => stepped(alloc, BinOp::Sub, place, part),
        WordOp::Pow | WordOp::Fin => power(alloc, UnOp::Pow, at, place, part),
        WordOp::Pow1 | WordOp::Fin1 => power(alloc, UnOp::Pow1, at, place, part),
        WordOp::Seq
        | WordOp::Size
        | WordOp::First
        | WordOp::Last
        | WordOp::Front
        | WordOp::Tail
        | WordOp::Rev => Ok(Step::silent(no_type(at))),
    }
}

// `not(P)`.
fn negation(alloc: Global, part: Told) -> Result<Step, Memory>
    ensures { IfOk result (λ s. IsRead s (meant.word_reading WordOp.Not 0 0 (shown_outcome part))) }
{
    let Asked { answer, fault } = part.ask_predicate();
    match answer {
        Some(form) => Ok(Step {
            outcome: Told::Holding(unary(alloc, UnOp::Not, form)?),
            fault,
        }),
        None => Ok(Step::silent(fault)),
    }
}

// `bool(P)`.
#[tactic(auto, using(bk_raw::proofs::Blamed::blames))]
fn truth_of(alloc: Global, part: Told) -> Result<Step, Memory>
    ensures { IfOk result (λ s. IsRead s (meant.word_reading WordOp.BoolOf 0 0 (shown_outcome part))) }
{
    let Asked { answer, fault } = part.ask_predicate();
    match answer {
        Some(form) => {
            let value = unary(alloc, UnOp::BoolOf, form)?;
            Ok(Step::told(value, Ty::boolean(), fault))
        }
        None => Ok(Step::silent(fault)),
    }
}

// `card(S)` of a set.
#[tactic(auto, using(bk_raw::proofs::Blamed::blames))]
fn count(alloc: Global, place: usize, part: Told) -> Result<Step, Memory>
    ensures { IfOk result (λ s. IsRead s (meant.word_reading WordOp.Card 0 place (shown_outcome part))) }
{
    let Asked { answer, fault } = part.ask_set(alloc, place)?;
    match answer {
        Some((form, _)) => {
            let value = unary(alloc, UnOp::Card, form)?;
            Ok(Step::told(value, Ty::int(), fault))
        }
        None => Ok(Step::silent(fault)),
    }
}

// `min(S)` and `max(S)` of a set of numbers.
#[tactic(auto, using(bk_raw::proofs::Blamed::blames))]
fn extreme(alloc: Global, op: UnOp, place: usize, part: Told) -> Result<Step, Memory>
    ensures { IfOk result (λ s. IsRead s
        (of_one (meant.number_made op) (ask place (shown_outcome part) (set_type int_type)))) }
{
    let numbers = Ty::set(alloc, Ty::int())?;
    let Asked { answer, fault } = part.ask(alloc, place, &numbers)?;
    match answer {
        Some(form) => Ok(Step::told(unary(alloc, op, form)?, Ty::int(), fault)),
        None => Ok(Step::silent(fault)),
    }
}

// `-a` of a number.
#[tactic(auto, using(bk_raw::proofs::Blamed::blames))]
pub(crate) fn negative(alloc: Global, place: usize, part: Told) -> Result<Step, Memory>
    ensures { IfOk result (λ s. IsRead s (meant.negative_reading place (shown_outcome part))) }
{
    let Asked { answer, fault } = part.ask(alloc, place, &Ty::int())?;
    match answer {
        Some(form) => Ok(Step::told(unary(alloc, UnOp::Neg, form)?, Ty::int(), fault)),
        None => Ok(Step::silent(fault)),
    }
}

// `succ(E)` is `E + 1`, and `pred(E)` is `E - 1`.
#[tactic(auto, using(bk_raw::proofs::Blamed::blames))]
fn stepped(alloc: Global, op: BinOp, place: usize, part: Told) -> Result<Step, Memory>
    ensures { IfOk result (λ s. IsRead s (of_one (meant.stepped op) (ask place (shown_outcome part) int_type))) }
{
    let Asked { answer, fault } = part.ask(alloc, place, &Ty::int())?;
    match answer {
        Some(form) => {
            let one = Form::make(alloc, Part::Int(1))?;
            Ok(Step::told(binary(alloc, op, form, one)?, Ty::int(), fault))
        }
        None => Ok(Step::silent(fault)),
    }
}

// `dom(r)` of a relation.
#[tactic(auto, using(bk_raw::proofs::Blamed::blames))]
fn domain(alloc: Global, place: usize, part: Told) -> Result<Step, Memory>
    ensures { IfOk result (λ s. IsRead s (meant.word_reading WordOp.Dom 0 place (shown_outcome part))) }
{
    let Asked { answer, fault } = part.ask_relation(alloc, place)?;
    match answer {
        Some((form, first, _)) => {
            let set = unary(alloc, UnOp::Dom, form)?;
            Ok(Step::told(set, Ty::set(alloc, first)?, fault))
        }
        None => Ok(Step::silent(fault)),
    }
}

// `ran(r)` of a relation.
#[tactic(auto, using(bk_raw::proofs::Blamed::blames))]
fn range(alloc: Global, place: usize, part: Told) -> Result<Step, Memory>
    ensures { IfOk result (λ s. IsRead s (meant.word_reading WordOp.Ran 0 place (shown_outcome part))) }
{
    let Asked { answer, fault } = part.ask_relation(alloc, place)?;
    match answer {
        Some((form, _, second)) => {
            let set = unary(alloc, UnOp::Ran, form)?;
            Ok(Step::told(set, Ty::set(alloc, second)?, fault))
        }
        None => Ok(Step::silent(fault)),
    }
}

// `r~` of a relation.
#[tactic(auto, using(bk_raw::proofs::Blamed::blames))]
pub(crate) fn inverse(alloc: Global, place: usize, part: Told) -> Result<Step, Memory>
    ensures { IfOk result (λ s. IsRead s (meant.inverse_reading place (shown_outcome part))) }
{
    let Asked { answer, fault } = part.ask_relation(alloc, place)?;
    match answer {
        Some((form, first, second)) => {
            let relation = unary(alloc, UnOp::Inverse, form)?;
            let pair = Ty::pair(alloc, second, first)?;
            Ok(Step::told(relation, Ty::set(alloc, pair)?, fault))
        }
        None => Ok(Step::silent(fault)),
    }
}

// `id(S)` of a set.
#[tactic(auto, using(bk_raw::proofs::Blamed::blames))]
fn identity(alloc: Global, place: usize, part: Told) -> Result<Step, Memory>
    ensures { IfOk result (λ s. IsRead s (meant.word_reading WordOp.Id 0 place (shown_outcome part))) }
{
    let Asked { answer, fault } = part.ask_set(alloc, place)?;
    match answer {
        Some((form, ty)) => {
            let relation = unary(alloc, UnOp::Id, form)?;
            let pair = Ty::pair(alloc, ty.copy(alloc)?, ty)?;
            Ok(Step::told(relation, Ty::set(alloc, pair)?, fault))
        }
        None => Ok(Step::silent(fault)),
    }
}

// `POW(D)` and `POW1(D)` of a domain: a domain over sets.
fn power(alloc: Global, op: UnOp, at: usize, place: usize, part: Told) -> Result<Step, Memory>
    ensures { IfOk result (λ s. IsRead s (of_one (meant.domain_made at op) (ask_domain place (shown_outcome part)))) }
{
    let Asked { answer, fault } = part.ask_domain(alloc, place)?;
    match answer {
        Some((form, ty)) => Ok(Step {
            outcome: Told::Ranging(unary(alloc, op, form)?, Ty::set(alloc, ty)?, at),
            fault,
        }),
        None => Ok(Step::silent(fault)),
    }
}
