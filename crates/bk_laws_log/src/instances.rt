//! The instances of the laws.

ghost use Rattle.std.specs.Prelude.{◌≡◌, ◌↔◌, ℕ, All, Some, None, Err, IfOk};
ghost use Rattle.bk_bind.specs.Limits.{IsWithinLimits};
ghost use Rattle.bk_bind.specs.declared.law.LawFault.TheVariants.{Unknown, Picks};
ghost use Rattle.bk_laws.specs.Rows.{Row, row_named, instance_at, IsFault};
ghost use Rattle.bk_laws.specs.Laws.{IsTrueLaw};
ghost use Rattle.bk_laws_log.specs.Rows.{rows, instance_of};

use crate::table::all_laws;
use bk_bind::{LawFault, LawInstance};
use bk_form::Form;
use bk_laws::Found;
use std::alloc::Global;

/// The law of this number at the picked formulas, which stand in the order in which the law's letters first occur in its left,
/// its right, then its sides. Row Gn of the laws of logic has the number n, row On of those of order and counting 100 + n.
/// `Picks` tells how many formulas there are where the law has another number of letters, else the first one, counted from
/// 1, that has to be an empty set and is none.
pub fn instance(alloc: Global, law: u16, picks: &[Form]) -> Result<LawInstance, LawFault>
    requires { All IsWithinLimits picks.now }
    ensures value { IfOk result (λ i. instance_at rows law picks.now ≡ Some (instance_of i)) }
    ensures is_true { IfOk result (λ i. IsTrueLaw (instance_of i)) }
    ensures unknown { (result ≡ Err Unknown) ↔ (row_named rows law ≡ None) }
    ensures picks { (k : ℕ) → (result ≡ Err (Picks k)) ↔
        ((row : Row) × (row_named rows law ≡ Some row) × IsFault row picks.now k) }
{
    let table = all_laws();
    match bk_laws::instance(alloc, table.patterns, table.laws, law, picks) {
        Ok(Found::NoLaw) => Err(LawFault::Unknown),
        Ok(Found::WrongPicks(number)) => Err(LawFault::Picks(number)),
        Ok(Found::Made { sides, left, right }) => Ok(LawInstance { sides, left, right }),
        Err(_) => Err(LawFault::Memory),
    }
}
