//! Substitutions without `||`.

ghost use Rattle.std.specs.Prelude.{◌≡◌, ℕ, ◌+◌, ◌++◌, [], length, Err, IfOk, OnOk};
ghost use Rattle.bk_form.specs.Wider.{IsWider};
ghost use Rattle.bk_gsl.specs.Typed.{Types};
ghost use Rattle.bk_gsl.specs.Flat.{copies_from, by_copies, copied, flat_from, flat, flat_table, IsFlat};
ghost use Rattle.bk_gsl.specs.Writes.{writes};
ghost use Rattle.bk_gsl.specs.Substitution.{loop};
ghost use Rattle.bk_par.specs.Overlaps.{overlaps, IsLeast};
ghost use Rattle.bk_par.specs.Bindings.{BindsApart};
ghost use Rattle.bk_par.specs.Laws.{DoesTheSame};
ghost use Rattle.bk_par.specs.declared.error.ParFault.TheVariants.{Overlap};

use crate::copies::{add_entries, by_copies, numbered};
use crate::error::ParFault;
use crate::overlap::first_overlap;
use bk_form::{Form, VarTable};
use bk_gsl::{Sub, SubNode, writes};
use bk_io::Memory;
use std::alloc::Global;

/// The substitution with each `S || T` rewritten by copies: `@c.(c = x ==> (S ; T'))`, with x the variables that S writes,
/// in rising order, c new variables of their types, and T' reading c for x. The table gets an entry for each copy, after its
/// own. Where both sides of some `||` write a variable, the smallest such is the fault, and the table is as it was; after
/// `Memory`, which comes too where 32 bits do not number the copies, it has its old entries and perhaps some of the new ones.
#[tactic(auto, using(crate::proofs::Whole::flattening))]
pub fn flatten(alloc: Global, sub: Sub, table: &mut VarTable) -> Result<Sub, ParFault>
    ensures value { IfOk result (λ s. s ≡ flat table.old sub) }
    ensures flat { IfOk result (λ s. IsFlat s) }
    ensures entries { OnOk result (table.new ≡ flat_table table.old sub) }
    ensures kept { IsWider table.old table.new }
    ensures sets { table.new.sets ≡ table.old.sets }
    ensures sides { OnOk result (overlaps sub ≡ []) }
    ensures overlap { (v : ℕ) → result ≡ Err (Overlap v) → IsLeast (overlaps sub) v }
    ensures unchanged { (v : ℕ) → result ≡ Err (Overlap v) → table.new ≡ table.old }
    ensures means { OnOk result (Types table.old sub → BindsApart sub → DoesTheSame table.old sub) }
{
    if let Some(variable) = first_overlap(alloc, &sub)? {
        return Err(ParFault::Overlap(variable));
    }
    let first = table.variables();
    let mut found = Vec::new(alloc);
    let rewritten = without_par(alloc, &sub, first, &mut found)?;
    add_entries(alloc, table, first, &found)?;
    Ok(rewritten)
}

// The substitution without `||`, where the numbers from `first` on are new, so many of them have been given already as `found`
// has variables, and those that are copied are added to it.
#[tactic(auto, using(crate::proofs::CopyNames::length_after))]
#[cycle(without_par)]
fn without_par(alloc: Global, sub: &Sub, first: usize, found: &mut Vec<u32>) -> Result<Sub, Memory>
    ensures value { IfOk result (λ s. s ≡ flat_from (first + length found.old.items) sub.now) }
    ensures listed { OnOk result (found.new.items ≡ found.old.items ++ copied sub.now) }
{
    match &*sub.node {
        SubNode::Pre(p, s) => {
            let s = without_par(alloc, s, first, found)?;
            Sub::pre(alloc, p.copy(alloc)?, s)
        }
        SubNode::Guard(p, s) => {
            let s = without_par(alloc, s, first, found)?;
            Sub::guard(alloc, p.copy(alloc)?, s)
        }
        SubNode::Choice(s, t) => {
            let (s, t) = both_without_par(alloc, s, t, first, found)?;
            Sub::choice(alloc, s, t)
        }
        SubNode::If(p, s, t) => {
            let (s, t) = both_without_par(alloc, s, t, first, found)?;
            Sub::if_else(alloc, p.copy(alloc)?, s, t)
        }
        SubNode::Any(locals, s) => {
            let s = without_par(alloc, s, first, found)?;
            Sub::any(alloc, Vec::from_slice(alloc, locals)?, s)
        }
        SubNode::Seq(s, t) => {
            let (s, t) = both_without_par(alloc, s, t, first, found)?;
            Sub::seq(alloc, s, t)
        }
        SubNode::Par(s, t) => {
            let (left, right) = both_without_par(alloc, s, t, first, found)?;
            copied_sides(alloc, s, left, right, first, found)
        }
        SubNode::While {
            test,
            body,
            invariant,
            variant,
        } => {
            let body = without_par(alloc, body, first, found)?;
            looping(alloc, test, body, invariant, variant)
        }
        SubNode::Assert(p, s) => {
            let s = without_par(alloc, s, first, found)?;
            Sub::assertion(alloc, p.copy(alloc)?, s)
        }
        // an assignment, `x :(P)` and skip stay
        _ => sub.copy(alloc),
    }
}

// Two substitutions without `||`, one after the other.
#[tactic(auto, using(crate::proofs::CopyNames::length_after))]
#[cycle(without_par)]
fn both_without_par(
    alloc: Global,
    one: &Sub,
    other: &Sub,
    first: usize,
    found: &mut Vec<u32>,
) -> Result<(Sub, Sub), Memory>
    ensures one { IfOk result (λ r. r.0 ≡ flat_from (first + length found.old.items) one.now) }
    ensures other { IfOk result
        (λ r. r.1 ≡ flat_from (first + length found.old.items + length (copied one.now)) other.now) }
    ensures listed { OnOk result (found.new.items ≡ found.old.items ++ (copied one.now ++ copied other.now)) }
{
    let one = without_par(alloc, one, first, found)?;
    Ok((one, without_par(alloc, other, first, found)?))
}

// Two sides by copies of what the left one writes, which are added to those before.
fn copied_sides(
    alloc: Global,
    sub: &Sub,
    left: Sub,
    right: Sub,
    first: usize,
    found: &mut Vec<u32>,
) -> Result<Sub, Memory>
    ensures value { IfOk result
        (λ s. s ≡ by_copies (copies_from (first + length found.old.items) (writes sub.now)) left right) }
    ensures listed { OnOk result (found.new.items ≡ found.old.items ++ writes sub.now) }
{
    let written = writes(alloc, sub)?;
    let next = first.checked_add(found.len()).ok_or(Memory)?;
    let pairs = numbered(alloc, next, &written)?;
    found.extend_from_slice(&written)?;
    by_copies(alloc, &pairs, left, right)
}

// The `WHILE` of this body, with copies of its formulas.
fn looping(
    alloc: Global,
    test: &Form,
    body: Sub,
    invariant: &Form,
    variant: &Form,
) -> Result<Sub, Memory>
    ensures { IfOk result (λ s. s ≡ loop test.now body invariant.now variant.now) }
{
    let test = test.copy(alloc)?;
    let invariant = invariant.copy(alloc)?;
    let variant = variant.copy(alloc)?;
    Sub::while_loop(alloc, test, body, invariant, variant)
}
