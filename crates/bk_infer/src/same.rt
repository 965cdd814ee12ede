// Whether groups of names are the same: what is told of one is then told of the other.

ghost use Rattle.std.specs.Prelude.{◌≡◌, IsTrue};
ghost use Rattle.bk_elab_terms.specs.Visible.{visible_names};
ghost use Rattle.bk_raw.specs.Trees.RawTree.{trees_of};
ghost use Rattle.bk_raw.specs.Codes.RawView.{node_of};
ghost use Rattle.bk_scope.specs.Shown.{refs};

use bk_elab_terms::Visible;
use bk_raw::{RawName, RawNode, RawTerm};
use bk_scope::way::Group;

// Whether two groups have the same names, in the same places, around them the same, and the same predicate.
pub fn is_same_group(left: &Group<'_>, right: &Group<'_>) -> bool
    ensures around { IsTrue result → visible_names left.now.around.items ≡ visible_names right.now.around.items }
    ensures names { IsTrue result → refs left.now.names.items ≡ refs right.now.names.items }
    ensures predicate { IsTrue result → left.now.predicate.now ≡ right.now.predicate.now }
{
    are_same_references(&left.names, &right.names)
        && are_same_visible(&left.around, &right.around)
        && is_same_term(left.predicate, right.predicate)
}

// Whether these are the same names in scope.
fn are_same_visible(left: &[Visible<'_>], right: &[Visible<'_>]) -> bool
    ensures { IsTrue result → visible_names left.now ≡ visible_names right.now }
{
    if left.len() != right.len() {
        return false;
    }
    for index in 0..left.len() {
        if !is_same_visible(left[index], right[index]) {
            return false;
        }
    }
    true
}

// Whether this is the same name in scope.
fn is_same_visible(left: Visible<'_>, right: Visible<'_>) -> bool
    ensures text { IsTrue result → left.entry.text.now ≡ right.entry.text.now }
    ensures meaning { IsTrue result → left.entry.meaning ≡ right.entry.meaning }
{
    left.meaning == right.meaning && left.text == right.text
}

// Whether the references point to the same written names.
fn are_same_references(left: &[&RawName], right: &[&RawName]) -> bool
    ensures { IsTrue result → refs left.now ≡ refs right.now }
{
    if left.len() != right.len() {
        return false;
    }
    for index in 0..left.len() {
        if !is_same_name(left[index], right[index]) {
            return false;
        }
    }
    true
}

// Whether these are the same written names.
fn are_same_names(left: &[RawName], right: &[RawName]) -> bool
    ensures { IsTrue result → left.now ≡ right.now }
{
    if left.len() != right.len() {
        return false;
    }
    for index in 0..left.len() {
        if !is_same_name(&left[index], &right[index]) {
            return false;
        }
    }
    true
}

// Whether this is the same name, written at the same place.
fn is_same_name(left: &RawName, right: &RawName) -> bool
    ensures { IsTrue result → left.now ≡ right.now }
{
    left.at == right.at && left.text.as_bytes() == right.text.as_bytes()
}

// Whether this is the same term, written at the same place. Forms that only printed formulas have are not compared.
#[tactic(auto, using(bk_elab_terms::proofs::Sizes::parts_are_smaller))]
#[cycle(same)]
fn is_same_term(left: &RawTerm, right: &RawTerm) -> bool
    ensures { IsTrue result → left.now ≡ right.now }
{
    left.at == right.at
        && match (&left.node, &right.node) {
            (RawNode::Name(name), RawNode::Name(other)) => name.as_bytes() == other.as_bytes(),
            (RawNode::LevelName(name, level), RawNode::LevelName(other, other_level)) => {
                level == other_level && name.as_bytes() == other.as_bytes()
            }
            (RawNode::Number(number), RawNode::Number(other)) => number == other,
            (RawNode::Constant(constant), RawNode::Constant(other)) => constant == other,
            (RawNode::Word(op, part), RawNode::Word(other, other_part)) => {
                op == other && is_same_term(part, other_part)
            }
            (RawNode::Negative(part), RawNode::Negative(other))
            | (RawNode::Inverse(part), RawNode::Inverse(other)) => is_same_term(part, other),
            (RawNode::Infix(op, first, second), RawNode::Infix(other, third, fourth)) => {
                op == other && is_same_term(first, third) && is_same_term(second, fourth)
            }
            (RawNode::Image(first, second), RawNode::Image(third, fourth))
            | (RawNode::Apply(first, second), RawNode::Apply(third, fourth))
            | (RawNode::Composition(first, second), RawNode::Composition(third, fourth))
            | (RawNode::Pair(first, second), RawNode::Pair(third, fourth)) => {
                is_same_term(first, third) && is_same_term(second, fourth)
            }
            (RawNode::EmptySet, RawNode::EmptySet) => true,
            (RawNode::Extension(elements), RawNode::Extension(others)) => {
                are_same_terms(elements, others)
            }
            (RawNode::Comprehension(names, body), RawNode::Comprehension(others, other_body))
            | (RawNode::ForAll(names, body), RawNode::ForAll(others, other_body))
            | (RawNode::Exists(names, body), RawNode::Exists(others, other_body)) => {
                are_same_names(names, others) && is_same_term(body, other_body)
            }
            (
                RawNode::Lambda(names, body, value),
                RawNode::Lambda(others, other_body, other_value),
            ) => {
                are_same_names(names, others)
                    && is_same_term(body, other_body)
                    && is_same_term(value, other_value)
            }
            _ => false,
        }
}

// Whether these are the same terms, written at the same places.
#[tactic(auto, using(bk_elab_terms::proofs::Sizes::parts_are_smaller))]
#[cycle(same)]
fn are_same_terms(left: &[RawTerm], right: &[RawTerm]) -> bool
    ensures { IsTrue result → left.now ≡ right.now }
{
    if left.len() != right.len() {
        return false;
    }
    for index in 0..left.len() {
        if !is_same_term(&left[index], &right[index]) {
            return false;
        }
    }
    true
}
