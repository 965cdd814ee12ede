//! Rows of elimination: an entry for each of four atoms, the constant, and how often each fact was taken.

ghost use Rattle.std.specs.Prelude.{◌≡◌, ◌+◌, ◌<◌, ◌≤◌, ◌+ℤ◌, ◌-ℤ◌, ◌*ℤ◌, ◌<ℤ◌, ℕ, pos, suc, length, IfOk, All, List, map, FitsSigned};
ghost use Rattle.std.specs.Int.{w128};
ghost use Rattle.bk_lin.specs.Certificate.{inequalities, width_of};
ghost use Rattle.bk_elim.specs.Elimination.{entry, joined, mixed};
ghost use Rattle.bk_elim.specs.Refutation.{IsSmallSystem};
ghost use Rattle.bk_elim.specs.Rows.{IsRow, IsStart};
ghost use Rattle.bk_elim.specs.Layout.{CanJoin};

use bk_lin::Fact;
use bk_val::Memory;
use std::alloc::Global;

/// The row of the fact at an index alone.
pub fn start_row(alloc: Global, facts: &[Fact], index: usize) -> Result<Vec<i128>, Memory>
    requires index { index < length facts.now }
    requires few { length facts.now ≤ 16 }
    requires narrow { All (λ f. length f.coefs.items ≤ 4) facts.now }
    ensures { IfOk result (λ row. IsStart (inequalities facts.now) index row.items) }
{
    let mut row = vec![in alloc; 0i128; 5 + facts.len()]?;
    let fact = &facts[index];
    copy_coefs(&fact.coefs, row.as_mut_slice());
    row[4] = fact.constant;
    row[5 + index] = 1;
    Ok(row)
}

fn copy_coefs(coefs: &[i128], row: &mut [i128])
    requires room { length coefs.now ≤ 4 }
    requires wide { 5 ≤ length row.old }
    requires clear { (k : ℕ) → entry row.old k ≡ pos 0 }
    ensures length { length row.new ≡ length row.old }
    ensures copied { (k : ℕ) → entry row.new k ≡ entry coefs.now k }
{
    for (k, coef) in coefs.iter().enumerate() {
        row[k] = *coef;
    }
}

/// A row whose entry at an atom is positive and one whose entry there is negative, joined so that it becomes 0.
pub fn join(alloc: Global, atom: usize, up: &[i128], down: &[i128]) -> Result<Vec<i128>, Memory>
    requires atom { atom < length up.now }
    requires wide { length down.now ≡ length up.now }
    requires fits { CanJoin atom up.now down.now }
    ensures { IfOk result (λ row. row.items ≡ joined atom up.now down.now) }
{
    let by = negated(down[atom]);
    let with = up[atom];
    let mut row = Vec::new(alloc);
    for k in 0..up.len() {
        row.push(mix(by, up[k], with, down[k]))?;
    }
    Ok(row)
}

/// 0 less the number.
pub fn negated(number: i128) -> i128
    requires { FitsSigned w128 (pos 0 -ℤ number) }
    ensures { result ≡ pos 0 -ℤ number }
{
    -number
}

/// One number times another, and a second such product, added.
pub fn mix(by: i128, left: i128, with: i128, right: i128) -> i128
    requires first { FitsSigned w128 (by *ℤ left) }
    requires second { FitsSigned w128 (with *ℤ right) }
    requires sum { FitsSigned w128 (by *ℤ left +ℤ with *ℤ right) }
    ensures { result ≡ by *ℤ left +ℤ with *ℤ right }
{
    by * left + with * right
}

/// An equal row.
pub fn copy_row(alloc: Global, row: &[i128]) -> Result<Vec<i128>, Memory>
    ensures { IfOk result (λ copy. copy.items ≡ row.now) }
{
    let mut copy = Vec::new(alloc);
    copy.extend_from_slice(row)?;
    Ok(copy)
}
