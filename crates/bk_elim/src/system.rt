//! Small systems of facts that contradict each other.

ghost use Rattle.std.specs.Prelude.{◌≡◌, ◌+◌, ◌<◌, ◌≤◌, ℕ, ℤ, pos, length, slice_index_or, IfOk, MatchOption, All, List, [], ◌∷◌, None};
ghost use Rattle.bk_lin.specs.Certificate.{inequalities, width_of};
ghost use Rattle.bk_lin.specs.Answer.{certificate_fault};
ghost use Rattle.bk_elim.specs.Elimination.{entry, IsSolution};
ghost use Rattle.bk_elim.specs.Refutation.{IsSmallSystem, Refutes};
ghost use Rattle.bk_elim.specs.Rows.{IsRow, IsStart, parts_from};
ghost use Rattle.bk_elim.specs.Bounds.{IsRefuting};
ghost use Rattle.bk_elim.specs.Layout.{lists};

use crate::elimination::{eliminate, last};
use crate::row::start_row;
use bk_lin::{Fact, Line};
use bk_val::Memory;
use std::alloc::Global;

/// The line of a certificate that the facts contradict each other; None where no multipliers sum them to a contradiction.
pub fn refute(alloc: Global, facts: &[Fact]) -> Result<Option<Line>, Memory>
    requires small { IsSmallSystem (width_of facts.now) (inequalities facts.now) }
    ensures { IfOk result (λ o. MatchOption o
        ((ms : List ℕ) → Refutes (width_of facts.now) (inequalities facts.now) ms → ⊥)
        (λ line. certificate_fault (width_of facts.now) (inequalities facts.now) (line ∷ []) ≡ None)) }
{
    let first = start(alloc, facts)?;
    let second = eliminate(alloc, facts, 0, &first)?;
    let third = eliminate(alloc, facts, 1, &second)?;
    match last(alloc, facts, &third)? {
        Some(row) => Ok(Some(Line::Sum(parts(alloc, facts, &row)?))),
        None => Ok(None),
    }
}

fn start(alloc: Global, facts: &[Fact]) -> Result<Vec<Vec<i128>>, Memory>
    requires small { IsSmallSystem (width_of facts.now) (inequalities facts.now) }
    ensures start { IfOk result (λ rows. (length rows.items ≡ length facts.now) ×
        ((i : ℕ) → i < length facts.now → IsStart (inequalities facts.now) i (slice_index_or (lists rows.items) i []))) }
    ensures rows { IfOk result (λ rows. All (λ v. IsRow (inequalities facts.now) 0 v.items) rows.items) }
{
    let mut rows = Vec::new(alloc);
    for index in 0..facts.len() {
        rows.push(start_row(alloc, facts, index)?)?;
    }
    Ok(rows)
}

fn parts(alloc: Global, facts: &[Fact], row: &[i128]) -> Result<Vec<(i128, u32)>, Memory>
    requires wide { length row.now ≡ 5 + length facts.now }
    requires few { length facts.now ≤ 16 }
    ensures { IfOk result (λ ps. ps.items ≡ parts_from (length facts.now) 0 row.now) }
{
    let mut parts = Vec::new(alloc);
    for index in 0..facts.len() {
        let times = row[5 + index];
        if times != 0 {
            parts.push((times, index as u32 + 1))?;
        }
    }
    Ok(parts)
}
