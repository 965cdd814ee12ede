//! The best lower and upper bound on the last atom.

ghost use Rattle.std.specs.Prelude.{◌≡◌, ◌+◌, ◌*◌, ◌^◌, ◌<◌, ◌≤◌, ◌<ℤ◌, ◌*ℤ◌, ◌≤ℤ◌, ◌-ℤ◌, true, false, Some, pos, IfOk, MatchOption, IsTrue, ◌↔◌, FitsSigned};
ghost use Rattle.std.specs.Int.{w128};
ghost use Rattle.std.specs.Int.RustNames.{unsigned_abs};
ghost use Rattle.bk_lin.specs.Certificate.{inequalities};
ghost use Rattle.bk_elim.specs.Elimination.{entry, joined};
ghost use Rattle.bk_elim.specs.Rows.{IsRow};
ghost use Rattle.bk_elim.specs.Bounds.{AreBounds, IsTaken, IsRefuting, IsBound, IsLow, IsHigh, IsBelow, IsAbove, IsCovered, IsBetterLow, IsBetterHigh, IsAgreed};
ghost use Rattle.bk_elim.specs.Layout.{list_in};

use crate::row::{join, negated};
use bk_lin::Fact;
use bk_val::Memory;
use std::alloc::Global;

/// Rows of one atom: the best with a positive coefficient, and the best with a negative one.
#[derive(Drop)]
pub struct Bounds {
    pub low: Option<Vec<i128>>,
    pub high: Option<Vec<i128>>,
}

impl Bounds {
    /// Takes a row in; answers a row without atoms that is false, where there is one now.
    pub fn take(
        &mut self,
        alloc: Global,
        facts: &[Fact],
        row: Vec<i128>,
    ) -> Result<Option<Vec<i128>>, Memory>
        requires bounds { AreBounds (inequalities facts.now) (list_in self.old.low) (list_in self.old.high) }
        requires row { IsRow (inequalities facts.now) 3 row.items }
        ensures { IfOk result (λ o. MatchOption o
            (IsTaken (inequalities facts.now) (list_in self.old.low) (list_in self.old.high)
            (list_in self.new.low) (list_in self.new.high) (entry row.items 3) (entry row.items 4))
            (λ r. IsRefuting (inequalities facts.now) r.items)) }
    {
        if row[3] == 0 {
            return Ok(if row[4] < 0 { Some(row) } else { None });
        }
        if row[3] > 0 {
            self.raise(alloc, facts, row)
        } else {
            self.lower(alloc, facts, row)
        }
    }

    /// Whether a row with this coefficient and constant says more than the bounds.
    pub fn wants(&self, facts: &[Fact], coef: i128, constant: i128) -> bool
        requires bounds { AreBounds (inequalities facts.now) (list_in self.now.low) (list_in self.now.high) }
        requires coef { unsigned_abs coef ≤ 163840000000 * 20 }
        requires constant { unsigned_abs constant ≤ 163840000000 * 2 ^ 40 }
        ensures { result ≡ false → IsCovered (list_in self.now.low) (list_in self.now.high) coef constant }
    {
        if coef == 0 {
            return constant < 0;
        }
        if coef > 0 {
            low_wants(facts, &self.low, coef, constant)
        } else {
            high_wants(facts, &self.high, coef, constant)
        }
    }

    fn raise(
        &mut self,
        alloc: Global,
        facts: &[Fact],
        row: Vec<i128>,
    ) -> Result<Option<Vec<i128>>, Memory>
        requires bounds { AreBounds (inequalities facts.now) (list_in self.old.low) (list_in self.old.high) }
        requires row { IsRow (inequalities facts.now) 3 row.items }
        requires up { pos 0 <ℤ entry row.items 3 }
        ensures { IfOk result (λ o. MatchOption o
            (IsTaken (inequalities facts.now) (list_in self.old.low) (list_in self.old.high)
            (list_in self.new.low) (list_in self.new.high) (entry row.items 3) (entry row.items 4))
            (λ r. IsRefuting (inequalities facts.now) r.items)) }
    {
        if !rises(facts, &self.low, &row) {
            return Ok(None);
        }
        match met_above(alloc, facts, &row, &self.high)? {
            Some(both) => Ok(Some(both)),
            None => {
                self.low = Some(row);
                Ok(None)
            }
        }
    }

    fn lower(
        &mut self,
        alloc: Global,
        facts: &[Fact],
        row: Vec<i128>,
    ) -> Result<Option<Vec<i128>>, Memory>
        requires bounds { AreBounds (inequalities facts.now) (list_in self.old.low) (list_in self.old.high) }
        requires row { IsRow (inequalities facts.now) 3 row.items }
        requires down { entry row.items 3 <ℤ pos 0 }
        ensures { IfOk result (λ o. MatchOption o
            (IsTaken (inequalities facts.now) (list_in self.old.low) (list_in self.old.high)
            (list_in self.new.low) (list_in self.new.high) (entry row.items 3) (entry row.items 4))
            (λ r. IsRefuting (inequalities facts.now) r.items)) }
    {
        if !falls(facts, &self.high, &row) {
            return Ok(None);
        }
        match met_below(alloc, facts, &self.low, &row)? {
            Some(both) => Ok(Some(both)),
            None => {
                self.high = Some(row);
                Ok(None)
            }
        }
    }
}

// Whether a coefficient and a constant say more than an old lower bound.
fn is_more_low(facts: &[Fact], old: &[i128], coef: i128, constant: i128) -> bool
    requires old { IsRow (inequalities facts.now) 3 old.now }
    requires coef { unsigned_abs coef ≤ 163840000000 * 20 }
    requires constant { unsigned_abs constant ≤ 163840000000 * 2 ^ 40 }
    ensures { IsTrue result ↔ ((constant *ℤ entry old.now 3) <ℤ (entry old.now 4 *ℤ coef)) }
{
    let _facts = facts;
    is_less(constant, old[3], old[4], coef)
}

// Whether a coefficient and a constant say more than an old upper bound.
fn is_more_high(facts: &[Fact], old: &[i128], coef: i128, constant: i128) -> bool
    requires old { IsRow (inequalities facts.now) 3 old.now }
    requires coef { unsigned_abs coef ≤ 163840000000 * 20 }
    requires constant { unsigned_abs constant ≤ 163840000000 * 2 ^ 40 }
    ensures { IsTrue result ↔ ((constant *ℤ (pos 0 -ℤ entry old.now 3)) <ℤ (entry old.now 4 *ℤ (pos 0 -ℤ coef))) }
{
    let _facts = facts;
    let (old_coef, new_coef) = (negated(old[3]), negated(coef));
    is_less(constant, old_coef, old[4], new_coef)
}

fn low_wants(facts: &[Fact], low: &Option<Vec<i128>>, coef: i128, constant: i128) -> bool
    requires low { IsBound (inequalities facts.now) (list_in low.now) }
    requires coef { unsigned_abs coef ≤ 163840000000 * 20 }
    requires constant { unsigned_abs constant ≤ 163840000000 * 2 ^ 40 }
    ensures { result ≡ false → IsBelow coef constant (list_in low.now) }
{
    match low {
        None => true,
        Some(old) => is_more_low(facts, old, coef, constant),
    }
}

fn high_wants(facts: &[Fact], high: &Option<Vec<i128>>, coef: i128, constant: i128) -> bool
    requires high { IsBound (inequalities facts.now) (list_in high.now) }
    requires coef { unsigned_abs coef ≤ 163840000000 * 20 }
    requires constant { unsigned_abs constant ≤ 163840000000 * 2 ^ 40 }
    ensures { result ≡ false → IsAbove coef constant (list_in high.now) }
{
    match high {
        None => true,
        Some(old) => is_more_high(facts, old, coef, constant),
    }
}

// Whether the row says more than the lower bound.
fn rises(facts: &[Fact], low: &Option<Vec<i128>>, row: &[i128]) -> bool
    requires low { IsBound (inequalities facts.now) (list_in low.now) }
    requires row { IsRow (inequalities facts.now) 3 row.now }
    ensures no { result ≡ false → pos 0 <ℤ entry row.now 3 → IsBelow (entry row.now 3) (entry row.now 4) (list_in low.now) }
    ensures yes { result ≡ true → IsBetterLow row.now (list_in low.now) }
{
    match low {
        None => true,
        Some(old) => is_better_low(facts, old, row),
    }
}

// Whether the row says more than the upper bound.
fn falls(facts: &[Fact], high: &Option<Vec<i128>>, row: &[i128]) -> bool
    requires high { IsBound (inequalities facts.now) (list_in high.now) }
    requires row { IsRow (inequalities facts.now) 3 row.now }
    ensures no { result ≡ false → entry row.now 3 <ℤ pos 0 → IsAbove (entry row.now 3) (entry row.now 4) (list_in high.now) }
    ensures yes { result ≡ true → IsBetterHigh row.now (list_in high.now) }
{
    match high {
        None => true,
        Some(old) => is_better_high(facts, old, row),
    }
}

// The false row that a lower bound makes with the upper one, where it makes one.
fn met_above(
    alloc: Global,
    facts: &[Fact],
    row: &[i128],
    high: &Option<Vec<i128>>,
) -> Result<Option<Vec<i128>>, Memory>
    requires row { IsRow (inequalities facts.now) 3 row.now }
    requires up { pos 0 <ℤ entry row.now 3 }
    requires high { IsBound (inequalities facts.now) (list_in high.now) }
    requires down { IsHigh (list_in high.now) }
    ensures { IfOk result (λ o. MatchOption o (IsAgreed (Some row.now) (list_in high.now))
        (λ r. IsRefuting (inequalities facts.now) r.items)) }
{
    match high {
        None => Ok(None),
        Some(high) => refuting(alloc, facts, row, high),
    }
}

// The false row that an upper bound makes with the lower one, where it makes one.
fn met_below(
    alloc: Global,
    facts: &[Fact],
    low: &Option<Vec<i128>>,
    row: &[i128],
) -> Result<Option<Vec<i128>>, Memory>
    requires row { IsRow (inequalities facts.now) 3 row.now }
    requires down { entry row.now 3 <ℤ pos 0 }
    requires low { IsBound (inequalities facts.now) (list_in low.now) }
    requires up { IsLow (list_in low.now) }
    ensures { IfOk result (λ o. MatchOption o (IsAgreed (list_in low.now) (Some row.now))
        (λ r. IsRefuting (inequalities facts.now) r.items)) }
{
    match low {
        None => Ok(None),
        Some(low) => refuting(alloc, facts, low, row),
    }
}

// The two bounds joined, where that is false.
fn refuting(
    alloc: Global,
    facts: &[Fact],
    low: &[i128],
    high: &[i128],
) -> Result<Option<Vec<i128>>, Memory>
    requires low { IsRow (inequalities facts.now) 3 low.now }
    requires high { IsRow (inequalities facts.now) 3 high.now }
    requires up { pos 0 <ℤ entry low.now 3 }
    requires down { entry high.now 3 <ℤ pos 0 }
    ensures { IfOk result (λ o. MatchOption o (pos 0 ≤ℤ entry (joined 3 low.now high.now) 4)
        (λ r. IsRefuting (inequalities facts.now) r.items)) }
{
    let both = join(alloc, 3, low, high)?;
    if both[4] < 0 {
        Ok(Some(both))
    } else {
        Ok(None)
    }
}

// Whether a row says more than an old lower bound.
fn is_better_low(facts: &[Fact], old: &[i128], row: &[i128]) -> bool
    requires old { IsRow (inequalities facts.now) 3 old.now }
    requires row { IsRow (inequalities facts.now) 3 row.now }
    ensures { IsTrue result ↔ ((entry row.now 4 *ℤ entry old.now 3) <ℤ (entry old.now 4 *ℤ entry row.now 3)) }
{
    let _facts = facts;
    is_less(row[4], old[3], old[4], row[3])
}

// Whether a row says more than an old upper bound.
fn is_better_high(facts: &[Fact], old: &[i128], row: &[i128]) -> bool
    requires old { IsRow (inequalities facts.now) 3 old.now }
    requires row { IsRow (inequalities facts.now) 3 row.now }
    ensures { IsTrue result ↔ ((entry row.now 4 *ℤ (pos 0 -ℤ entry old.now 3)) <ℤ
        (entry old.now 4 *ℤ (pos 0 -ℤ entry row.now 3))) }
{
    let _facts = facts;
    let (old_coef, coef) = (negated(old[3]), negated(row[3]));
    is_less(row[4], old_coef, old[4], coef)
}

/// Whether one product is less than another.
fn is_less(a: i128, b: i128, c: i128, d: i128) -> bool
    requires left { FitsSigned w128 (a *ℤ b) }
    requires right { FitsSigned w128 (c *ℤ d) }
    ensures { IsTrue result ↔ ((a *ℤ b) <ℤ (c *ℤ d)) }
{
    a * b < c * d
}
