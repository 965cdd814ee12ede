//! The instances of the laws.

ghost use Rattle.std.specs.Prelude.{◌≡◌, ◌≢◌, ◌↔◌, ℕ, All, Some, None, Err, IfOk, length, min, ◌-◌, ◌^◌};
ghost use Rattle.bk_bind.specs.Limits.{IsWithinLimits};
ghost use Rattle.bk_bind.specs.declared.law.LawFault.TheVariants.{Unknown, Picks};
ghost use Rattle.bk_laws.specs.Laws.{IsTrueLaw};
ghost use Rattle.bk_laws.specs.Rows.{pick_at};
ghost use Rattle.bk_seqs.specs.Rows.{Row, rows, row_named, instance_at};
ghost use Rattle.bk_seqs.specs.RowNames.{row_at, instance_of};

use crate::row::{RowName, letters, row_named};
use crate::rows;
use bk_bind::{LawFault, LawInstance};
use bk_form::Form;
use bk_io::Memory;
use std::alloc::Global;

/// The law of this number at the picked formulas, which stand in the order in which the law's letters first occur in its left,
/// its right, then its sides. Row Qn has the number 400 + n. `Picks` tells how many formulas there are where the law has
/// another number of letters.
#[tactic(auto, using(crate::proofs::True::true_laws))]
pub fn instance(alloc: Global, law: u16, picks: &[Form]) -> Result<LawInstance, LawFault>
    requires { All IsWithinLimits picks.now }
    ensures value { IfOk result (λ i. instance_at rows law picks.now ≡ Some (instance_of i)) }
    ensures is_true { IfOk result (λ i. IsTrueLaw (instance_of i)) }
    ensures unknown { (result ≡ Err Unknown) ↔ (row_named rows law ≡ None) }
    ensures picks { (k : ℕ) → (result ≡ Err (Picks k)) ↔
        ((row : Row) × (row_named rows law ≡ Some row) × (length picks.now ≢ row.letters) × (k ≡ min (length picks.now) (2 ^ 32 - 1))) }
{
    let Some(row) = row_named(law) else {
        return Err(LawFault::Unknown);
    };
    if picks.len() != letters(row) {
        return Err(LawFault::Picks(u32::try_from(picks.len()).unwrap_or(u32::MAX)));
    }
    Ok(built(alloc, row, picks)?)
}

// The row at the picks.
#[tactic(auto, using(crate::proofs::Measures::picked))]
fn built(alloc: Global, row: RowName, picks: &[Form]) -> Result<LawInstance, Memory>
    requires small { All IsWithinLimits picks.now }
    requires count { length picks.now ≡ (row_at row).letters }
    ensures { IfOk result (λ i. instance_of i ≡ (row_at row).at (pick_at picks.now)) }
{
    match row {
        RowName::Q1 => rows::law_1(alloc, &picks[0], &picks[1], &picks[2]),
        RowName::Q2 => rows::law_2(alloc, &picks[0], &picks[1], &picks[2]),
        RowName::Q3 => rows::law_3(alloc, &picks[0], &picks[1], &picks[2]),
        RowName::Q4 => rows::law_4(alloc, &picks[0], &picks[1], &picks[2], &picks[3]),
        RowName::Q5 => rows::law_5(alloc, &picks[0], &picks[1]),
        RowName::Q6 => rows::law_6(alloc, &picks[0], &picks[1]),
        RowName::Q7 => rows::law_7(alloc, &picks[0], &picks[1]),
        RowName::Q8 => rows::law_8(alloc, &picks[0], &picks[1]),
        RowName::Q9 => rows::law_9(alloc, &picks[0], &picks[1]),
        RowName::Q10 => rows::law_10(alloc, &picks[0], &picks[1]),
        RowName::Q11 => rows::law_11(alloc, &picks[0], &picks[1]),
        RowName::Q12 => rows::law_12(alloc, &picks[0], &picks[1], &picks[2]),
        RowName::Q13 => rows::law_13(alloc, &picks[0], &picks[1], &picks[2]),
        RowName::Q14 => rows::law_14(alloc, &picks[0], &picks[1], &picks[2]),
        RowName::Q15 => rows::law_15(alloc, &picks[0], &picks[1], &picks[2]),
        RowName::Q16 => rows::law_16(alloc, &picks[0], &picks[1]),
    }
}
