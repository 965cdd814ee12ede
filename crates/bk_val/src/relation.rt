//! Relations: sets whose pairs count. An element that is no pair stands in no domain and has no image.

ghost use Rattle.std.specs.Prelude.{◌≡◌, ◌↔◌, ◌||◌, ◌&&◌, not, true, IfOk, Some, None, filter};
ghost use Rattle.std.specs.Option.{option_copied};
ghost use Rattle.bk_val.specs.Value.{MathValue, pair, IsStoredSet};
ghost use Rattle.bk_val.specs.Sets.{has, begins_outside, in_domain, overridden_of, image_of, apply_of, IsImage, IsOnlyValue};

use crate::error::Memory;
use crate::sets::{contains, union};
use crate::value::{Node, Val, ValSet};
use std::alloc::Global;

/// The relation `r` overridden by `s`, written `r <+ s`: `s`, and the pairs of `r` that start as no pair of
/// `s` does.
pub fn overridden(alloc: Global, r: &ValSet, s: &ValSet) -> Result<ValSet, Memory>
    ensures exact { IfOk result (λ t. t ≡ overridden_of r.now s.now) }
    ensures pairs { IfOk result (λ t. (x y : MathValue) →
        has t (pair x y) ≡ ((has r.now (pair x y) && not (in_domain s.now x)) || has s.now (pair x y))) }
{
    let kept = outside_domain(alloc, r, s)?;
    union(alloc, &kept, s)
}

/// The image of the set `s` under the relation `r`, written `r[s]`.
pub fn image(alloc: Global, r: &ValSet, s: &ValSet) -> Result<ValSet, Memory>
    ensures exact { IfOk result (λ t. t ≡ image_of r.now s.now) }
    ensures members { IfOk result (λ t. (y : MathValue) → (has t y ≡ true) ↔ IsImage r.now s.now y) }
{
    let mut items = Vec::new(alloc);
    for p in &r.items {
        if let Node::Pair(first, second) = &p.node {
            if contains(s, first) {
                items.push(second.copy(alloc)?)?;
            }
        }
    }
    Ok(ValSet::from_items(items))
}

/// The value of the function `f` at `x`, written `f(x)`, or None where not exactly one pair of `f` starts
/// with `x`.
pub fn apply(alloc: Global, f: &ValSet, x: &Val) -> Result<Option<Val>, Memory>
    ensures exact { IfOk result (λ o. o ≡ apply_of f.now x.now) }
    ensures some { IfOk result (λ o. (y : MathValue) → (o ≡ Some y) ↔ IsOnlyValue f.now x.now y) }
    ensures none { IfOk result (λ o. (o ≡ None) ↔ ((y : MathValue) → ¬ IsOnlyValue f.now x.now y)) }
{
    match only_second(f, x) {
        Some(y) => Ok(Some(y.copy(alloc)?)),
        None => Ok(None),
    }
}

/// The second part of the pair of `f` that starts with `x`, where there is exactly one.
fn only_second<'a>(f: &'a ValSet, x: &Val) -> Option<&'a Val>
    ensures exact { option_copied result ≡ apply_of f.now x.now }
    ensures well_formed { IsStoredSet f.now }
{
    let mut found: Option<&Val> = None;
    for p in &f.items {
        if let Node::Pair(first, second) = &p.node {
            if x == &**first {
                if found.is_some() {
                    return None;
                }
                found = Some(second);
            }
        }
    }
    found
}

/// The pairs of `r` that start as no pair of `s` does.
fn outside_domain(alloc: Global, r: &ValSet, s: &ValSet) -> Result<ValSet, Memory>
    ensures { IfOk result (λ t. t ≡ filter (begins_outside s.now) r.now) }
{
    let mut items = Vec::new(alloc);
    for p in &r.items {
        if is_outside_domain(p, s) {
            items.push(p.copy(alloc)?)?;
        }
    }
    Ok(ValSet { items })
}

/// Whether it is a pair that starts as no pair of `s` does.
fn is_outside_domain(p: &Val, s: &ValSet) -> bool
    ensures { result ≡ begins_outside s.now p.now }
{
    match &p.node {
        Node::Pair(first, _) => !is_in_domain(s, first),
        _ => false,
    }
}

/// Whether a pair of `r` starts with `x`.
fn is_in_domain(r: &ValSet, x: &Val) -> bool
    ensures { result ≡ in_domain r.now x.now }
{
    for p in &r.items {
        if let Node::Pair(first, _) = &p.node {
            if x == &**first {
                return true;
            }
        }
    }
    false
}
