// The names that stand free in a term, and the terms that `&` joins in it.

ghost use Rattle.std.specs.Prelude.{◌≡◌, ◌<◌, ◌++◌, [], ◌∷◌, None, Some, IfOk, IfSome, MatchOption, option_to_list};
ghost use Rattle.bk_raw.specs.Trees.FreeNames.{conjuncts, is_among};
ghost use Rattle.bk_raw.specs.Trees.RawTree.{tree_size, trees_of};
ghost use Rattle.bk_raw.specs.Codes.RawView.{ranges_of};
ghost use Rattle.bk_p_expr.specs.Conjuncts.{AreConjuncts, IsConjunct, definition, free_names, free_names_of};
ghost use Rattle.bk_p_expr.specs.Conjuncts.{free_names_of_ranges, name_alone, names_beside, names_of_conjuncts, without};

use bk_io::{Memory, Text};
use bk_raw::{InfixOp, RawName, RawNode, RawRange, RawTerm};
use std::alloc::Global;

/// One of the terms that `&` joins.
#[derive(Drop)]
pub struct Conjunct {
    /// The name that it defines, where it is `x = e`.
    pub name: Option<Text>,
    /// The names that stand free in `e`, or in all of it where it defines none; each as often as it stands there.
    pub free: Vec<Text>,
}

/// What `&` joins in the term, from left to right.
pub fn conjuncts(alloc: Global, term: &RawTerm) -> Result<Vec<Conjunct>, Memory>
    ensures { IfOk result (λ all. AreConjuncts (conjuncts term.now) all.items) }
{
    let Some((left, right)) = joined_terms(term) else {
        let one = only_conjunct(alloc, term)?;
        let mut all = Vec::new(alloc);
        all.push(one)?;
        return Ok(all);
    };
    let mut all = conjuncts(alloc, left)?;
    let mut behind = conjuncts(alloc, right)?;
    all.append(&mut behind)?;
    Ok(all)
}

/// The two terms that `&` joins.
fn joined_terms(term: &RawTerm) -> Option<(&RawTerm, &RawTerm)>
    ensures found { MatchOption result (conjuncts term.now ≡ term.now ∷ [])
        (λ p. conjuncts term.now ≡ conjuncts p.0.now ++ conjuncts p.1.now) }
    ensures left { IfSome result (λ p. tree_size p.0.now < tree_size term.now) }
    ensures right { IfSome result (λ p. tree_size p.1.now < tree_size term.now) }
{
    match &term.node {
        RawNode::Infix(InfixOp::And, left, right) => Some((left, right)),
        _ => None,
    }
}

/// The term as the only one that is joined.
fn only_conjunct(alloc: Global, term: &RawTerm) -> Result<Conjunct, Memory>
    ensures { IfOk result (λ c. IsConjunct term.now c) }
{
    let Some((text, value)) = defined(term) else {
        let free = free_names(alloc, term)?;
        return Ok(Conjunct { name: None, free });
    };
    let name = text.copy(alloc)?;
    let free = free_names(alloc, value)?;
    Ok(Conjunct {
        name: Some(name),
        free,
    })
}

/// `x` and `e` of `x = e`.
fn defined(term: &RawTerm) -> Option<(&Text, &RawTerm)>
    ensures { MatchOption result (definition term.now ≡ (None, term.now))
        (λ p. definition term.now ≡ (Some p.0.now, p.1.now)) }
{
    let RawNode::Infix(InfixOp::Equal, left, right) = &term.node else {
        return None;
    };
    let text = name_alone(left)?;
    Some((text, right))
}

/// The name that the term is, if it is one.
pub(crate) fn name_alone(term: &RawTerm) -> Option<&Text>
    ensures { MatchOption result (name_alone term.now ≡ None) (λ p. name_alone term.now ≡ Some p.now) }
{
    match &term.node {
        RawNode::Name(text) => Some(text),
        _ => None,
    }
}

impl Conjunct {
    /// The name that it defines, if it does, and then the free ones.
    fn names(self, alloc: Global) -> Result<Vec<Text>, Memory>
        ensures { IfOk result (λ all. all.items ≡ option_to_list self.name ++ self.free.items) }
    {
        let Conjunct { name, free } = self;
        let Some(name) = name else {
            return Ok(free);
        };
        let mut all = Vec::new(alloc);
        all.push(name)?;
        joined(all, free)
    }
}

/// The names in conjuncts, those that they define among them.
pub(crate) fn names_of_conjuncts(alloc: Global, known: Vec<Conjunct>) -> Result<Vec<Text>, Memory>
    ensures { IfOk result (λ all. all.items ≡ names_of_conjuncts known.items) }
{
    let mut all = Vec::new(alloc);
    for conjunct in known {
        all = joined(all, conjunct.names(alloc)?)?;
    }
    Ok(all)
}

/// The names that stand free in the term.
#[tactic(auto, using(crate::proofs::Sizes::parts_are_smaller))]
#[cycle(free)]
pub(crate) fn free_names(alloc: Global, term: &RawTerm) -> Result<Vec<Text>, Memory>
    ensures { IfOk result (λ all. all.items ≡ free_names term.now) }
{
    match &term.node {
        RawNode::Name(text) => only(alloc, text),
        RawNode::Word(_, part)
        | RawNode::Negative(part)
        | RawNode::Inverse(part)
        | RawNode::TypedForAll(_, part)
        | RawNode::TypedExists(_, part) => free_names(alloc, part),
        RawNode::Infix(op, left, right) => {
            beside(*op, free_names(alloc, left)?, free_names(alloc, right)?)
        }
        RawNode::Image(left, right)
        | RawNode::Apply(left, right)
        | RawNode::Composition(left, right)
        | RawNode::Pair(left, right) => {
            joined(free_names(alloc, left)?, free_names(alloc, right)?)
        }
        RawNode::Extension(terms) => free_names_of(alloc, terms),
        RawNode::Comprehension(names, body)
        | RawNode::ForAll(names, body)
        | RawNode::Exists(names, body) => Ok(without(names, free_names(alloc, body)?)),
        RawNode::Lambda(names, body, value) => {
            let free = joined(free_names(alloc, body)?, free_names(alloc, value)?)?;
            Ok(without(names, free))
        }
        RawNode::RangedComprehension(ranges, body) => {
            joined(
                free_names_of_ranges(alloc, ranges)?,
                free_names(alloc, body)?,
            )
        }
        RawNode::RangedLambda(ranges, body, value) => {
            let bound = free_names_of_ranges(alloc, ranges)?;
            let free = joined(bound, free_names(alloc, body)?)?;
            joined(free, free_names(alloc, value)?)
        }
        _ => Ok(Vec::new(alloc)),
    }
}

/// The names that stand free in one of the terms.
#[tactic(auto, using(crate::proofs::Sizes::parts_are_smaller))]
#[cycle(free)]
pub(crate) fn free_names_of(alloc: Global, terms: &[RawTerm]) -> Result<Vec<Text>, Memory>
    ensures { IfOk result (λ all. all.items ≡ free_names_of (trees_of terms.now)) }
{
    let mut all = Vec::new(alloc);
    for term in terms {
        all = joined(all, free_names(alloc, term)?)?;
    }
    Ok(all)
}

/// The names that stand free in one of the ranges.
#[tactic(auto, using(crate::proofs::Sizes::parts_are_smaller))]
#[cycle(free)]
pub(crate) fn free_names_of_ranges(alloc: Global, ranges: &[RawRange]) -> Result<Vec<Text>, Memory>
    ensures { IfOk result (λ all. all.items ≡ free_names_of_ranges (ranges_of ranges.now)) }
{
    let mut all = Vec::new(alloc);
    for range in ranges {
        all = joined(all, free_names(alloc, &range.range)?)?;
    }
    Ok(all)
}

/// A list of one name.
fn only(alloc: Global, text: &Text) -> Result<Vec<Text>, Memory>
    ensures { IfOk result (λ all. all.items ≡ text.now ∷ []) }
{
    let mut all = Vec::new(alloc);
    all.push(text.copy(alloc)?)?;
    Ok(all)
}

/// The one names and then the others. It takes no longer than the others are.
pub(crate) fn joined(mut one: Vec<Text>, mut other: Vec<Text>) -> Result<Vec<Text>, Memory>
    ensures { IfOk result (λ all. all.items ≡ one.items ++ other.items) }
{
    if one.is_empty() {
        return Ok(other);
    }
    one.append(&mut other)?;
    Ok(one)
}

/// The names of the parts of an operator's term.
pub(crate) fn beside(op: InfixOp, left: Vec<Text>, right: Vec<Text>) -> Result<Vec<Text>, Memory>
    ensures { IfOk result (λ all. all.items ≡ names_beside op left.items right.items) }
{
    match op {
        InfixOp::Power => joined(right, left),
        _ => joined(left, right),
    }
}

/// The names but these.
pub(crate) fn without(names: &[RawName], mut free: Vec<Text>) -> Vec<Text>
    ensures { result.items ≡ without names.now free.items }
{
    free.retain(|name| !among(name, names));
    free
}

/// Whether the name is one of these.
fn among(name: &Text, names: &[RawName]) -> bool
    ensures { result ≡ is_among name.now names.now }
{
    for other in names {
        if other.text == *name {
            return true;
        }
    }
    false
}
