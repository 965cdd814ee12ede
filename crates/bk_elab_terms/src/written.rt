// What a term is as it is written: by its form alone.

ghost use Rattle.std.specs.Option.{option_copied};
ghost use Rattle.std.specs.Prelude.{◌≡◌, Some};
ghost use Rattle.bk_raw.specs.Trees.FreeNames.{stands_free, is_among, is_free_in_some, is_free_in_ranges};
ghost use Rattle.bk_raw.specs.Trees.RawTree.{trees_of};
ghost use Rattle.bk_raw.specs.Codes.RawView.{ranges_of};
ghost use Rattle.bk_raw.specs.Meaning.TermReading as meant;
ghost use Rattle.bk_raw.specs.Errors.Blame.{blame};
ghost use Rattle.bk_raw.specs.Errors.Faults.{not_predicate};
ghost use Rattle.bk_elab_terms.specs.Conjuncts.{and_sides, infix_sides, implies_sides, shown_pair, shown_infix};
ghost use Rattle.bk_elab_terms.specs.Shapes.{strict_here};
ghost use Rattle.bk_elab_terms.specs.Shown.{told};

use crate::blame::{Fault, earlier};
use bk_io::Text;
use bk_raw::{Constant, FaultKind, InfixOp, RawName, RawNode, RawRange, RawTerm, WordOp};

// Whether a predicate stands after the word.
pub(crate) fn takes_predicate(op: WordOp) -> bool
    ensures { result ≡ meant.takes_predicate op }
{
    matches!(op, WordOp::Not | WordOp::BoolOf)
}

// Whether the sides of the operator are predicates.
pub(crate) fn is_connective(op: InfixOp) -> bool
    ensures { result ≡ meant.is_connective op }
{
    matches!(
        op,
        InfixOp::Equivalent | InfixOp::Implies | InfixOp::And | InfixOp::Or
    )
}

// The sides of `&`, where the term is one.
pub(crate) fn and_sides(term: &RawTerm) -> Option<(&RawTerm, &RawTerm)>
    ensures { shown_pair result ≡ and_sides term.now }
{
    match &term.node {
        RawNode::Infix(InfixOp::And, left, right) => Some((left, right)),
        _ => None,
    }
}

// The operator and the sides of a term between two parts.
pub(crate) fn infix_sides(term: &RawTerm) -> Option<(InfixOp, &RawTerm, &RawTerm)>
    ensures { shown_infix result ≡ infix_sides term.now }
{
    match &term.node {
        RawNode::Infix(op, left, right) => Some((*op, left, right)),
        _ => None,
    }
}

// The sides of `=>`, where the term is one.
pub(crate) fn implies_sides(term: &RawTerm) -> Option<(&RawTerm, &RawTerm)>
    ensures { shown_pair result ≡ implies_sides term.now }
{
    match &term.node {
        RawNode::Infix(InfixOp::Implies, premise, conclusion) => Some((premise, conclusion)),
        _ => None,
    }
}

// The name, where the term is one.
pub(crate) fn name_of(term: &RawTerm) -> Option<&Text>
    ensures { option_copied result ≡ meant.name_of term.now }
{
    match &term.node {
        RawNode::Name(name) => Some(name),
        _ => None,
    }
}

// Whether a term is a predicate, by its form alone.
pub(crate) fn is_predicate(term: &RawTerm) -> bool
    ensures { result ≡ meant.is_predicate term.now }
{
    match &term.node {
        RawNode::Constant(word) => is_truth_word(*word),
        RawNode::Word(op, _) => *op == WordOp::Not,
        RawNode::Infix(op, _, _) => makes_predicate(*op),
        RawNode::ForAll(_, _)
        | RawNode::Exists(_, _)
        | RawNode::TypedForAll(_, _)
        | RawNode::TypedExists(_, _) => true,
        _ => false,
    }
}

// Whether it is `btrue` or `bfalse`.
fn is_truth_word(word: Constant) -> bool
    ensures { result ≡ meant.is_truth_word word }
{
    matches!(word, Constant::Btrue | Constant::Bfalse)
}

// Whether the operator makes a predicate.
fn makes_predicate(op: InfixOp) -> bool
    ensures { result ≡ meant.makes_predicate op }
{
    match op {
        InfixOp::Equal
        | InfixOp::NotEqual
        | InfixOp::Less
        | InfixOp::AtMost
        | InfixOp::Greater
        | InfixOp::AtLeast
        | InfixOp::Member
        | InfixOp::NotMember
        | InfixOp::Subset
        | InfixOp::NotSubset
        | InfixOp::StrictSubset => true,
        _ => is_connective(op),
    }
}

// An expression where a predicate stands, or the reverse, or a `<<:` within a side of another one.
pub(crate) fn misplaced(at: usize) -> Option<Fault>
    ensures { told result ≡ Some (not_predicate at) }
{
    Some(Fault {
        kind: FaultKind::NotPredicate,
        place: at,
    })
}

// The first `<<:` within a side of another one.
pub(crate) fn strict_fault(op: InfixOp, left: &RawTerm, right: &RawTerm) -> Option<Fault>
    ensures { told result ≡ blame (meant.strict_faults op left.now right.now) }
{
    match op {
        InfixOp::StrictSubset => earlier(first_strict(left), first_strict(right)),
        _ => None,
    }
}

// The fault of an operator at a byte within a side of `<<:`, if it is one itself.
fn strict_at(at: usize, op: InfixOp) -> Option<Fault>
    ensures { told result ≡ blame (strict_here at op) }
{
    if op != InfixOp::StrictSubset {
        return None;
    }
    misplaced(at)
}

// The first `<<:` in a term.
#[tactic(auto, using(crate::proofs::Sizes::parts_are_smaller, bk_raw::proofs::Blamed::blames, crate::proofs::Strict::strict_parts))]
#[cycle(strict)]
fn first_strict(term: &RawTerm) -> Option<Fault>
    ensures { told result ≡ blame (meant.stricts term.now) }
{
    match &term.node {
        RawNode::Word(_, part)
        | RawNode::Negative(part)
        | RawNode::Inverse(part)
        | RawNode::Comprehension(_, part)
        | RawNode::ForAll(_, part)
        | RawNode::Exists(_, part)
        | RawNode::TypedForAll(_, part)
        | RawNode::TypedExists(_, part) => first_strict(part),
        RawNode::Infix(op, left, right) => {
            let sides = earlier(first_strict(left), first_strict(right));
            earlier(strict_at(term.at, *op), sides)
        }
        RawNode::Image(left, right)
        | RawNode::Apply(left, right)
        | RawNode::Composition(left, right)
        | RawNode::Pair(left, right)
        | RawNode::Lambda(_, left, right) => earlier(first_strict(left), first_strict(right)),
        RawNode::Extension(elements) => first_strict_of(elements),
        RawNode::RangedComprehension(ranges, body) => {
            earlier(first_strict_in(ranges), first_strict(body))
        }
        RawNode::RangedLambda(ranges, body, value) => {
            let parts = earlier(first_strict(body), first_strict(value));
            earlier(first_strict_in(ranges), parts)
        }
        _ => None,
    }
}

// The first `<<:` in one of the terms.
#[tactic(auto, using(crate::proofs::Sizes::parts_are_smaller, bk_raw::proofs::Blamed::blames, crate::proofs::Strict::strict_parts))]
#[cycle(strict)]
fn first_strict_of(terms: &[RawTerm]) -> Option<Fault>
    ensures { told result ≡ blame (meant.all_stricts (trees_of terms.now)) }
{
    let mut fault = None;
    for term in terms {
        fault = earlier(fault, first_strict(term));
    }
    fault
}

// The first `<<:` in one of the ranges.
#[tactic(auto, using(crate::proofs::Sizes::parts_are_smaller, bk_raw::proofs::Blamed::blames, crate::proofs::Strict::strict_parts))]
#[cycle(strict)]
fn first_strict_in(ranges: &[RawRange]) -> Option<Fault>
    ensures { told result ≡ blame (meant.ranges_stricts (ranges_of ranges.now)) }
{
    let mut fault = None;
    for range in ranges {
        fault = earlier(fault, first_strict(&range.range));
    }
    fault
}

// Whether one of the names stands free in the term.
pub(crate) fn names_one(names: &[RawName], term: &RawTerm) -> bool
    ensures { result ≡ meant.names_one names.now term.now }
{
    for name in names {
        if stands_free(name.text.as_bytes(), term) {
            return true;
        }
    }
    false
}

// Whether the name stands free in the term.
#[tactic(auto, using(crate::proofs::Sizes::parts_are_smaller))]
#[cycle(free)]
pub(crate) fn stands_free(text: &[u8], term: &RawTerm) -> bool
    ensures { result ≡ stands_free text.now term.now }
{
    match &term.node {
        RawNode::Name(name) => name.as_bytes() == text,
        RawNode::Word(_, part)
        | RawNode::Negative(part)
        | RawNode::Inverse(part)
        | RawNode::TypedForAll(_, part)
        | RawNode::TypedExists(_, part) => stands_free(text, part),
        RawNode::Infix(_, left, right)
        | RawNode::Image(left, right)
        | RawNode::Apply(left, right)
        | RawNode::Composition(left, right)
        | RawNode::Pair(left, right) => stands_free(text, left) || stands_free(text, right),
        RawNode::Extension(elements) => stands_free_in_one(text, elements),
        RawNode::Comprehension(names, body)
        | RawNode::ForAll(names, body)
        | RawNode::Exists(names, body) => !is_among(text, names) && stands_free(text, body),
        RawNode::Lambda(names, body, value) => {
            !is_among(text, names) && (stands_free(text, body) || stands_free(text, value))
        }
        RawNode::RangedComprehension(ranges, body) => {
            stands_free_in_ranges(text, ranges) || stands_free(text, body)
        }
        RawNode::RangedLambda(ranges, body, value) => {
            stands_free_in_ranges(text, ranges)
                || stands_free(text, body)
                || stands_free(text, value)
        }
        _ => false,
    }
}

// Whether the name stands free in one of the terms.
#[tactic(auto, using(crate::proofs::Sizes::parts_are_smaller))]
#[cycle(free)]
fn stands_free_in_one(text: &[u8], terms: &[RawTerm]) -> bool
    ensures { result ≡ is_free_in_some text.now (trees_of terms.now) }
{
    for term in terms {
        if stands_free(text, term) {
            return true;
        }
    }
    false
}

// Whether the name stands free in one of the ranges.
#[tactic(auto, using(crate::proofs::Sizes::parts_are_smaller))]
#[cycle(free)]
fn stands_free_in_ranges(text: &[u8], ranges: &[RawRange]) -> bool
    ensures { result ≡ is_free_in_ranges text.now (ranges_of ranges.now) }
{
    for range in ranges {
        if stands_free(text, &range.range) {
            return true;
        }
    }
    false
}

// Whether the text is one of these names.
pub(crate) fn is_among(text: &[u8], names: &[RawName]) -> bool
    ensures { result ≡ is_among text.now names.now }
{
    for name in names {
        if name.text.as_bytes() == text {
            return true;
        }
    }
    false
}
