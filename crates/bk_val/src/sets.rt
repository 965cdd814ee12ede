//! Membership, union, intersection and difference of sets.

ghost use Rattle.std.specs.Prelude.{◌≡◌, ◌↔◌, ◌||◌, ◌&&◌, not, IsTrue, IfOk, OnOk, Contains, ◌++◌, filter, if◌then◌else◌};
ghost use Rattle.bk_val.specs.Value.{MathValue};
ghost use Rattle.bk_val.specs.Sets.{union_of, inter_of, minus_of, has};

use crate::error::Memory;
use crate::value::{Val, ValSet, compare};
use std::alloc::Global;
use std::cmp::Ordering;

/// Whether `x` is an element of the set. Takes no memory, and time logarithmic in the size of the set.
pub fn contains(s: &ValSet, x: &Val) -> bool
    ensures member { IsTrue result ↔ Contains s.now x.now }
    ensures test { result ≡ has s.now x.now }
{
    s.items.binary_search(x).is_ok()
}

/// The elements of either set. Takes time linear in the sizes of both.
pub fn union(alloc: Global, a: &ValSet, b: &ValSet) -> Result<ValSet, Memory>
    ensures exact { IfOk result (λ s. s ≡ union_of a.now b.now) }
    ensures members { IfOk result (λ s. (q : MathValue) → has s q ≡ (has a.now q || has b.now q)) }
{
    let left = a.items.as_slice();
    let right = b.items.as_slice();
    let mut items = Vec::new(alloc);
    let (mut i, mut j) = (0, 0);
    while i < left.len() && j < right.len() {
        match compare(&left[i], &right[j]) {
            Ordering::Less => {
                items.push(left[i].copy(alloc)?)?;
                i += 1;
            }
            Ordering::Equal => {
                items.push(left[i].copy(alloc)?)?;
                (i, j) = (i + 1, j + 1);
            }
            Ordering::Greater => {
                items.push(right[j].copy(alloc)?)?;
                j += 1;
            }
        }
    }
    copy_onto(alloc, &mut items, &left[i..])?;
    copy_onto(alloc, &mut items, &right[j..])?;
    Ok(ValSet { items })
}

/// Copies the values of `from` to the end of `items`.
fn copy_onto(alloc: Global, items: &mut Vec<Val>, from: &[Val]) -> Result<(), Memory>
    ensures { OnOk result (items.new.items ≡ items.old.items ++ from.now) }
{
    for x in from {
        items.push(x.copy(alloc)?)?;
    }
    Ok(())
}

/// The elements of both sets.
pub fn inter(alloc: Global, a: &ValSet, b: &ValSet) -> Result<ValSet, Memory>
    ensures exact { IfOk result (λ s. s ≡ inter_of a.now b.now) }
    ensures members { IfOk result (λ s. (q : MathValue) → has s q ≡ (has a.now q && has b.now q)) }
{
    selected(alloc, a, b, true)
}

/// The elements of the first set that the second lacks.
pub fn minus(alloc: Global, a: &ValSet, b: &ValSet) -> Result<ValSet, Memory>
    ensures exact { IfOk result (λ s. s ≡ minus_of a.now b.now) }
    ensures members { IfOk result (λ s. (q : MathValue) → has s q ≡ (has a.now q && not (has b.now q))) }
{
    selected(alloc, a, b, false)
}

/// The elements of `a` that `b` has, or those that it lacks.
fn selected(alloc: Global, a: &ValSet, b: &ValSet, present: bool) -> Result<ValSet, Memory>
    ensures { IfOk result (λ s. s ≡ filter (λ x. if present then has b.now x else not (has b.now x)) a.now) }
{
    let mut items = Vec::new(alloc);
    for x in &a.items {
        if contains(b, x) == present {
            items.push(x.copy(alloc)?)?;
        }
    }
    Ok(ValSet { items })
}
