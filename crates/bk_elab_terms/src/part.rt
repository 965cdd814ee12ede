// What comes of the parts of a term, each in the place where it stands.

ghost use Rattle.std.specs.Prelude.{◌≡◌, false, IfOk};
ghost use Rattle.bk_raw.specs.Meaning.OperatorReadings as operator;
ghost use Rattle.bk_raw.specs.Meaning.Outcome.{Reading, plainly, partial, hollow};
ghost use Rattle.bk_raw.specs.Meaning.TermReading as meant;
ghost use Rattle.bk_raw.specs.Meaning.TermReading.{part, place_of, from_one, from_two};
ghost use Rattle.bk_elab_terms.specs.Shown.{IsRead};

use crate::blame::earlier;
use crate::operator::{Places, application, composition, extended, image, infix, pair, single};
use crate::outcome::{Step, Told};
use crate::partial::Expression;
use crate::word::{inverse, negative, word};
use crate::written::{is_connective, is_predicate, misplaced, strict_fault, takes_predicate};
use bk_io::Memory;
use bk_raw::{InfixOp, RawTerm, WordOp};
use std::alloc::Global;

// A part in a place where a predicate is wanted, or an expression: the other one is at fault, and what lies in it is
// still judged.
#[tactic(auto, using(bk_raw::proofs::Blamed::blames, crate::proofs::Placed::places))]
pub(crate) fn placed(wanted: bool, term: &RawTerm, read: Step) -> Step
    ensures { (r : Reading) → IsRead read r → IsRead result (part wanted term.now r) }
{
    if is_predicate(term) == wanted {
        return read;
    }
    Step::silent(earlier(misplaced(term.at), read.fault))
}

// `{}`.
pub(crate) fn empty_set() -> Step
    ensures { IsRead result (plainly (partial hollow)) }
{
    Step::plain(Told::Expressed(Expression::empty()))
}

// A word at a byte before a part.
pub(crate) fn word_of(
    alloc: Global,
    op: WordOp,
    at: usize,
    term: &RawTerm,
    read: Step,
) -> Result<Step, Memory>
    ensures { IfOk result (λ s. (r : Reading) → IsRead read r →
        IsRead s (from_one (operator.word_reading op at (place_of term.now)) (part (meant.takes_predicate op) term.now r))) }
{
    let wanted = takes_predicate(op);
    let place = place_of(term);
    let read = placed(wanted, term, read);
    let step = word(alloc, op, at, place, read.outcome)?;
    Ok(step.behind(read.fault))
}

// `-a`.
pub(crate) fn negative_of(alloc: Global, term: &RawTerm, read: Step) -> Result<Step, Memory>
    ensures { IfOk result (λ s. (r : Reading) → IsRead read r →
        IsRead s (from_one (operator.negative_reading (place_of term.now)) (part false term.now r))) }
{
    let place = place_of(term);
    let read = placed(false, term, read);
    let step = negative(alloc, place, read.outcome)?;
    Ok(step.behind(read.fault))
}

// `r~`.
pub(crate) fn inverse_of(alloc: Global, term: &RawTerm, read: Step) -> Result<Step, Memory>
    ensures { IfOk result (λ s. (r : Reading) → IsRead read r →
        IsRead s (from_one (operator.inverse_reading (place_of term.now)) (part false term.now r))) }
{
    let place = place_of(term);
    let read = placed(false, term, read);
    let step = inverse(alloc, place, read.outcome)?;
    Ok(step.behind(read.fault))
}

// `{E}`.
pub(crate) fn single_of(alloc: Global, term: &RawTerm, read: Step) -> Result<Step, Memory>
    ensures { IfOk result (λ s. (r : Reading) → IsRead read r →
        IsRead s (from_one operator.single_reading (part false term.now r))) }
{
    let read = placed(false, term, read);
    let step = single(alloc, read.outcome)?;
    Ok(step.behind(read.fault))
}

// One element more of a set.
pub(crate) fn extended_by(
    alloc: Global,
    at: usize,
    term: &RawTerm,
    set: Step,
    read: Step,
) -> Result<Step, Memory>
    ensures { IfOk result (λ s. (b r : Reading) → IsRead set b → IsRead read r →
        IsRead s (from_two (operator.extended at) b (part false term.now r))) }
{
    let read = placed(false, term, read);
    let fault = earlier(set.fault, read.fault);
    let step = extended(alloc, at, set.outcome, read.outcome)?;
    Ok(step.behind(fault))
}

// An operator at a byte between two parts.
pub(crate) fn infix_of(
    alloc: Global,
    op: InfixOp,
    at: usize,
    left: &RawTerm,
    right: &RawTerm,
    one: Step,
    other: Step,
) -> Result<Step, Memory>
    ensures { IfOk result (λ s. (r t : Reading) → IsRead one r → IsRead other t →
        IsRead s (meant.spoilt_by (meant.strict_faults op left.now right.now)
        (from_two (operator.infix_reading op at (place_of left.now) (place_of right.now))
        (part (meant.is_connective op) left.now r) (part (meant.is_connective op) right.now t)))) }
{
    let wanted = is_connective(op);
    let one = placed(wanted, left, one);
    let other = placed(wanted, right, other);
    let fault = earlier(one.fault, other.fault);
    let places = places(at, left, right);
    let step = infix(alloc, op, places, one.outcome, other.outcome)?;
    let step = step.behind(fault);
    Ok(step.spoilt_by(strict_fault(op, left, right)))
}

// `r[S]`.
pub(crate) fn image_of(
    alloc: Global,
    left: &RawTerm,
    right: &RawTerm,
    one: Step,
    other: Step,
) -> Result<Step, Memory>
    ensures { IfOk result (λ s. (r t : Reading) → IsRead one r → IsRead other t →
        IsRead s (from_two (operator.image_reading (place_of left.now) (place_of right.now))
        (part false left.now r) (part false right.now t))) }
{
    let one = placed(false, left, one);
    let other = placed(false, right, other);
    let fault = earlier(one.fault, other.fault);
    let places = places(0, left, right);
    let step = image(alloc, places, one.outcome, other.outcome)?;
    Ok(step.behind(fault))
}

// `f(x)`.
pub(crate) fn application_of(
    alloc: Global,
    left: &RawTerm,
    right: &RawTerm,
    one: Step,
    other: Step,
) -> Result<Step, Memory>
    ensures { IfOk result (λ s. (r t : Reading) → IsRead one r → IsRead other t →
        IsRead s (from_two (operator.apply_reading (place_of left.now) (place_of right.now))
        (part false left.now r) (part false right.now t))) }
{
    let one = placed(false, left, one);
    let other = placed(false, right, other);
    let fault = earlier(one.fault, other.fault);
    let places = places(0, left, right);
    let step = application(alloc, places, one.outcome, other.outcome)?;
    Ok(step.behind(fault))
}

// `(r ; s)` at a byte.
pub(crate) fn composition_of(
    alloc: Global,
    at: usize,
    left: &RawTerm,
    right: &RawTerm,
    one: Step,
    other: Step,
) -> Result<Step, Memory>
    ensures { IfOk result (λ s. (r t : Reading) → IsRead one r → IsRead other t →
        IsRead s (from_two (operator.composition_reading at (place_of left.now) (place_of right.now))
        (part false left.now r) (part false right.now t))) }
{
    let one = placed(false, left, one);
    let other = placed(false, right, other);
    let fault = earlier(one.fault, other.fault);
    let places = places(at, left, right);
    let step = composition(alloc, places, one.outcome, other.outcome)?;
    Ok(step.behind(fault))
}

// `(a, b)`.
pub(crate) fn pair_of(
    alloc: Global,
    left: &RawTerm,
    right: &RawTerm,
    one: Step,
    other: Step,
) -> Result<Step, Memory>
    ensures { IfOk result (λ s. (r t : Reading) → IsRead one r → IsRead other t →
        IsRead s (from_two operator.pair_reading (part false left.now r) (part false right.now t))) }
{
    let one = placed(false, left, one);
    let other = placed(false, right, other);
    let fault = earlier(one.fault, other.fault);
    let step = pair(alloc, one.outcome, other.outcome)?;
    Ok(step.behind(fault))
}

// The byte of a term.
pub(crate) fn place_of(term: &RawTerm) -> usize
    ensures { result ≡ place_of term.now }
{
    term.at
}

// The bytes of a term and of its parts.
fn places(at: usize, left: &RawTerm, right: &RawTerm) -> Places
    ensures { result ≡ record { whole = at; left = place_of left.now; right = place_of right.now } }
{
    Places {
        whole: at,
        left: place_of(left),
        right: place_of(right),
    }
}
