// Names with a dollar sign in terms, and the other additions with which formulas are printed.

ghost use Rattle.std.specs.Prelude.{◌≡◌};
ghost use Rattle.bk_raw.specs.Trees.RawTree.{trees_of};
ghost use Rattle.bk_raw.specs.Codes.RawView.{ranges_of};
ghost use Rattle.bk_elab_terms.specs.Kept.{has_dollar, dollar_untyped, names_dollar, is_own, has_unsettled};
ghost use Rattle.bk_elab_terms.specs.Kept.{some_have_unsettled, ranges_have_unsettled, has_additions, some_have_additions};
ghost use Rattle.bk_elab_terms.specs.Sights.{bounds_of};

use crate::sight::Local;
use bk_raw::{RawName, RawNode, RawRange, RawTerm};

// Whether a dollar sign stands in one of the names that have no type.
pub(crate) fn dollar_untyped(locals: &[Local<'_>]) -> bool
    ensures { result ≡ dollar_untyped (bounds_of locals.now) }
{
    for local in locals {
        if local.ty.is_none() && has_dollar(local.text) {
            return true;
        }
    }
    false
}

// Whether a dollar sign stands in one of these names.
pub(crate) fn names_dollar(names: &[RawName]) -> bool
    ensures { result ≡ names_dollar names.now }
{
    for name in names {
        if has_dollar(name.text.as_bytes()) {
            return true;
        }
    }
    false
}

// Whether a dollar sign stands in the text.
fn has_dollar(text: &[u8]) -> bool
    ensures { result ≡ has_dollar text.now }
{
    for byte in text {
        if *byte == b'$' {
            return true;
        }
    }
    false
}

// Whether `$k` is one of so many bound variables after the first ones.
fn is_own(first: usize, count: usize, number: u32) -> bool
    ensures { result ≡ is_own first count number }
{
    let Some(behind) = (number as usize).checked_sub(first) else {
        return false;
    };
    0 < behind && behind <= count
}

// Whether one of those stands in the term by its number, or a name at a level where names have dollar signs.
#[tactic(auto, using(crate::proofs::Sizes::parts_are_smaller))]
#[cycle(unsettled)]
pub(crate) fn has_unsettled(first: usize, count: usize, dollar: bool, term: &RawTerm) -> bool
    ensures { result ≡ has_unsettled first count dollar term.now }
{
    match &term.node {
        RawNode::LevelName(_, _) => dollar,
        RawNode::BoundName(number) => is_own(first, count, *number),
        RawNode::Word(_, part)
        | RawNode::Negative(part)
        | RawNode::Inverse(part)
        | RawNode::Comprehension(_, part)
        | RawNode::ForAll(_, part)
        | RawNode::Exists(_, part)
        | RawNode::TypedForAll(_, part)
        | RawNode::TypedExists(_, part) => has_unsettled(first, count, dollar, part),
        RawNode::Infix(_, left, right)
        | RawNode::Image(left, right)
        | RawNode::Apply(left, right)
        | RawNode::Composition(left, right)
        | RawNode::Pair(left, right)
        | RawNode::Lambda(_, left, right) => {
            has_unsettled(first, count, dollar, left) || has_unsettled(first, count, dollar, right)
        }
        RawNode::Extension(elements) => one_has_unsettled(first, count, dollar, elements),
        RawNode::RangedComprehension(ranges, body) => {
            range_has_unsettled(first, count, dollar, ranges)
                || has_unsettled(first, count, dollar, body)
        }
        RawNode::RangedLambda(ranges, body, value) => {
            range_has_unsettled(first, count, dollar, ranges)
                || has_unsettled(first, count, dollar, body)
                || has_unsettled(first, count, dollar, value)
        }
        _ => false,
    }
}

// Whether one stands in one of the terms.
#[tactic(auto, using(crate::proofs::Sizes::parts_are_smaller))]
#[cycle(unsettled)]
fn one_has_unsettled(first: usize, count: usize, dollar: bool, terms: &[RawTerm]) -> bool
    ensures { result ≡ some_have_unsettled first count dollar (trees_of terms.now) }
{
    for term in terms {
        if has_unsettled(first, count, dollar, term) {
            return true;
        }
    }
    false
}

// Whether one stands in one of the ranges.
#[tactic(auto, using(crate::proofs::Sizes::parts_are_smaller))]
#[cycle(unsettled)]
fn range_has_unsettled(first: usize, count: usize, dollar: bool, ranges: &[RawRange]) -> bool
    ensures { result ≡ ranges_have_unsettled first count dollar (ranges_of ranges.now) }
{
    for range in ranges {
        if has_unsettled(first, count, dollar, &range.range) {
            return true;
        }
    }
    false
}

// Whether `$k`, a written type or a binder of numbered variables stands in the term, or a name at a level where names
// have dollar signs.
#[tactic(auto, using(crate::proofs::Sizes::parts_are_smaller))]
#[cycle(additions)]
pub(crate) fn has_additions(dollar: bool, term: &RawTerm) -> bool
    ensures { result ≡ has_additions dollar term.now }
{
    match &term.node {
        RawNode::LevelName(_, _) => dollar,
        RawNode::Name(_) | RawNode::Number(_) | RawNode::Constant(_) | RawNode::EmptySet => false,
        RawNode::Word(_, part)
        | RawNode::Negative(part)
        | RawNode::Inverse(part)
        | RawNode::Comprehension(_, part)
        | RawNode::ForAll(_, part)
        | RawNode::Exists(_, part) => has_additions(dollar, part),
        RawNode::Infix(_, left, right)
        | RawNode::Image(left, right)
        | RawNode::Apply(left, right)
        | RawNode::Composition(left, right)
        | RawNode::Pair(left, right)
        | RawNode::Lambda(_, left, right) => {
            has_additions(dollar, left) || has_additions(dollar, right)
        },
        RawNode::Extension(elements) => one_has_additions(dollar, elements),
        _ => true,
    }
}

// Whether one of the terms has such an addition.
#[tactic(auto, using(crate::proofs::Sizes::parts_are_smaller))]
#[cycle(additions)]
fn one_has_additions(dollar: bool, terms: &[RawTerm]) -> bool
    ensures { result ≡ some_have_additions dollar (trees_of terms.now) }
{
    for term in terms {
        if has_additions(dollar, term) {
            return true;
        }
    }
    false
}
