//! One atom after another is taken out of the rows.

ghost use Rattle.std.specs.Prelude.{◌≡◌, ◌+◌, ◌<◌, ◌≤◌, ◌<ℤ◌, false, ℕ, ℤ, pos, suc, length, IfOk, OnOk, MatchOption, All, List};
ghost use Rattle.std.specs.List.{Contains};
ghost use Rattle.bk_lin.specs.Certificate.{inequalities};
ghost use Rattle.bk_elim.specs.Elimination.{entry, joined, IsEliminated, IsSolution};
ghost use Rattle.bk_elim.specs.Rows.{IsRow};
ghost use Rattle.bk_elim.specs.Bounds.{AreBounds, IsTaken, IsCovered, IsRefuting};
ghost use Rattle.bk_elim.specs.Layout.{lists, list_in};

use crate::bounds::Bounds;
use crate::row::{copy_row, join, mix, negated};
use bk_lin::Fact;
use bk_val::Memory;
use std::alloc::Global;

/// The rows without the atom: those that do not have it, and each two others that have it with different signs, joined.
pub fn eliminate(
    alloc: Global,
    facts: &[Fact],
    atom: usize,
    rows: &[Vec<i128>],
) -> Result<Vec<Vec<i128>>, Memory>
    requires atom { atom < 4 }
    requires rows { All (λ v. IsRow (inequalities facts.now) atom v.items) rows.now }
    ensures gone { IfOk result (λ out. IsEliminated atom (lists rows.now) (lists out.items)) }
    ensures rows { IfOk result (λ out. All (λ v. IsRow (inequalities facts.now) (suc atom) v.items) out.items) }
{
    let mut out = Vec::new(alloc);
    keep_level(alloc, facts, atom, rows, &mut out)?;
    for up in rows {
        if up[atom] > 0 {
            join_each(alloc, facts, atom, up, rows, &mut out)?;
        }
    }
    Ok(out)
}

fn keep_level(
    alloc: Global,
    facts: &[Fact],
    atom: usize,
    rows: &[Vec<i128>],
    out: &mut Vec<Vec<i128>>,
) -> Result<(), Memory>
    requires atom { atom < 4 }
    requires rows { All (λ v. IsRow (inequalities facts.now) atom v.items) rows.now }
    requires out { All (λ v. IsRow (inequalities facts.now) (suc atom) v.items) out.old.items }
    ensures level { OnOk result (All (λ v. entry v.items atom ≡ pos 0 → Contains (lists out.new.items) v.items) rows.now) }
    ensures rows { OnOk result (All (λ v. IsRow (inequalities facts.now) (suc atom) v.items) out.new.items) }
{
    for row in rows {
        if row[atom] == 0 {
            out.push(copy_row(alloc, row)?)?;
        }
    }
    Ok(())
}

fn join_each(
    alloc: Global,
    facts: &[Fact],
    atom: usize,
    up: &[i128],
    rows: &[Vec<i128>],
    out: &mut Vec<Vec<i128>>,
) -> Result<(), Memory>
    requires atom { atom < 4 }
    requires up_row { IsRow (inequalities facts.now) atom up.now }
    requires up { pos 0 <ℤ entry up.now atom }
    requires rows { All (λ v. IsRow (inequalities facts.now) atom v.items) rows.now }
    requires out { All (λ v. IsRow (inequalities facts.now) (suc atom) v.items) out.old.items }
    ensures kept { OnOk result ((r : List ℤ) → Contains (lists out.old.items) r → Contains (lists out.new.items) r) }
    ensures joined { OnOk result (All (λ v. entry v.items atom <ℤ pos 0 →
        Contains (lists out.new.items) (joined atom up.now v.items)) rows.now) }
    ensures rows { OnOk result (All (λ v. IsRow (inequalities facts.now) (suc atom) v.items) out.new.items) }
{
    for down in rows {
        if down[atom] < 0 {
            out.push(join(alloc, atom, up, down)?)?;
        }
    }
    Ok(())
}

/// Takes the last two atoms out at once, without the rows between: either a row without atoms that is false, or the rows have a
/// solution.
pub fn last(alloc: Global, facts: &[Fact], rows: &[Vec<i128>]) -> Result<Option<Vec<i128>>, Memory>
    requires rows { All (λ v. IsRow (inequalities facts.now) 2 v.items) rows.now }
    ensures { IfOk result (λ o. MatchOption o ((x : ℕ → ℤ) × IsSolution 4 x (lists rows.now))
        (λ r. IsRefuting (inequalities facts.now) r.items)) }
{
    let mut bounds = Bounds {
        low: None,
        high: None,
    };
    match take_level(alloc, facts, rows, &mut bounds)? {
        Some(found) => return Ok(Some(found)),
        None => {}
    }
    for up in rows {
        if up[2] > 0 {
            match take_joined(alloc, facts, up, rows, &mut bounds)? {
                Some(found) => return Ok(Some(found)),
                None => {}
            }
        }
    }
    Ok(None)
}

fn take_level(
    alloc: Global,
    facts: &[Fact],
    rows: &[Vec<i128>],
    bounds: &mut Bounds,
) -> Result<Option<Vec<i128>>, Memory>
    requires rows { All (λ v. IsRow (inequalities facts.now) 2 v.items) rows.now }
    requires bounds { AreBounds (inequalities facts.now) (list_in bounds.old.low) (list_in bounds.old.high) }
    ensures { IfOk result (λ o. MatchOption o
        (AreBounds (inequalities facts.now) (list_in bounds.new.low) (list_in bounds.new.high) ×
        All (λ v. entry v.items 2 ≡ pos 0 →
        IsCovered (list_in bounds.new.low) (list_in bounds.new.high) (entry v.items 3) (entry v.items 4)) rows.now)
        (λ r. IsRefuting (inequalities facts.now) r.items)) }
{
    for row in rows {
        if row[2] == 0 {
            match bounds.take(alloc, facts, copy_row(alloc, row)?)? {
                Some(found) => return Ok(Some(found)),
                None => {}
            }
        }
    }
    Ok(None)
}

fn take_joined(
    alloc: Global,
    facts: &[Fact],
    up: &[i128],
    rows: &[Vec<i128>],
    bounds: &mut Bounds,
) -> Result<Option<Vec<i128>>, Memory>
    requires up_row { IsRow (inequalities facts.now) 2 up.now }
    requires up { pos 0 <ℤ entry up.now 2 }
    requires rows { All (λ v. IsRow (inequalities facts.now) 2 v.items) rows.now }
    requires bounds { AreBounds (inequalities facts.now) (list_in bounds.old.low) (list_in bounds.old.high) }
    ensures { IfOk result (λ o. MatchOption o
        (AreBounds (inequalities facts.now) (list_in bounds.new.low) (list_in bounds.new.high) ×
        All (λ v. entry v.items 2 <ℤ pos 0 → IsCovered (list_in bounds.new.low) (list_in bounds.new.high)
        (entry (joined 2 up.now v.items) 3) (entry (joined 2 up.now v.items) 4)) rows.now ×
        ((h k : ℤ) → IsCovered (list_in bounds.old.low) (list_in bounds.old.high) h k →
        IsCovered (list_in bounds.new.low) (list_in bounds.new.high) h k))
        (λ r. IsRefuting (inequalities facts.now) r.items)) }
{
    for down in rows {
        if down[2] < 0 {
            match take_one(alloc, facts, up, down, bounds)? {
                Some(found) => return Ok(Some(found)),
                None => {}
            }
        }
    }
    Ok(None)
}

fn take_one(
    alloc: Global,
    facts: &[Fact],
    up: &[i128],
    down: &[i128],
    bounds: &mut Bounds,
) -> Result<Option<Vec<i128>>, Memory>
    requires up_row { IsRow (inequalities facts.now) 2 up.now }
    requires down_row { IsRow (inequalities facts.now) 2 down.now }
    requires up { pos 0 <ℤ entry up.now 2 }
    requires down { entry down.now 2 <ℤ pos 0 }
    requires bounds { AreBounds (inequalities facts.now) (list_in bounds.old.low) (list_in bounds.old.high) }
    ensures { IfOk result (λ o. MatchOption o
        (IsTaken (inequalities facts.now) (list_in bounds.old.low) (list_in bounds.old.high)
        (list_in bounds.new.low) (list_in bounds.new.high)
        (entry (joined 2 up.now down.now) 3) (entry (joined 2 up.now down.now) 4))
        (λ r. IsRefuting (inequalities facts.now) r.items)) }
{
    if !is_wanted(facts, up, down, bounds) {
        return Ok(None);
    }
    let row = join(alloc, 2, up, down)?;
    bounds.take(alloc, facts, row)
}

// Whether the two joined say more than the bounds: told by two numbers of the row, before it is made.
fn is_wanted(facts: &[Fact], up: &[i128], down: &[i128], bounds: &Bounds) -> bool
    requires up_row { IsRow (inequalities facts.now) 2 up.now }
    requires down_row { IsRow (inequalities facts.now) 2 down.now }
    requires up { pos 0 <ℤ entry up.now 2 }
    requires down { entry down.now 2 <ℤ pos 0 }
    requires bounds { AreBounds (inequalities facts.now) (list_in bounds.now.low) (list_in bounds.now.high) }
    ensures { result ≡ false → IsCovered (list_in bounds.now.low) (list_in bounds.now.high)
        (entry (joined 2 up.now down.now) 3) (entry (joined 2 up.now down.now) 4) }
{
    let coef = joined_entry(facts, up, down, 3);
    let constant = joined_entry(facts, up, down, 4);
    bounds.wants(facts, coef, constant)
}

fn joined_entry(facts: &[Fact], up: &[i128], down: &[i128], place: usize) -> i128
    requires up_row { IsRow (inequalities facts.now) 2 up.now }
    requires down_row { IsRow (inequalities facts.now) 2 down.now }
    requires place { place < 5 }
    ensures { result ≡ entry (joined 2 up.now down.now) place }
{
    let _facts = facts;
    let by = negated(down[2]);
    mix(by, up[place], up[2], down[place])
}
