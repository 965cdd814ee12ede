// What is asked of the sides of an operator, and conditions that several operators ask.

ghost use Rattle.std.specs.Prelude.{◌≡◌, pos, Err, IfOk};
ghost use Rattle.bk_form.specs.Formula.{literal};
ghost use Rattle.bk_bind.specs.Limits.{IsWithinLimits};
ghost use Rattle.bk_bind.specs.declared.error.BindFault.TheVariants.{TooLarge};
ghost use Rattle.bk_wd.specs.Operands.{right_met, sides_asked, not_zero, has_remainder};

use crate::joining::{both, where_false, where_true};
use bk_bind::{BindFault, binary, unary};
use bk_form::{BinOp, Form, Part, UnOp};
use bk_io::Memory;
use std::alloc::Global;

// What the left side is asked, `first`, and then what the right side is asked, `second`, where that is met.
#[tactic(auto, using(crate::proofs::Within::conditions_within))]
pub(crate) fn sides_asked(
    alloc: Global,
    op: BinOp,
    left: &Form,
    first: Form,
    second: Form,
) -> Result<Form, BindFault>
    ensures value { IfOk result (λ f. f ≡ sides_asked (right_met op) left.now first second) }
    ensures too_large { result ≡ Err TooLarge →
        IsWithinLimits (sides_asked (right_met op) left.now first second) → ⊥ }
{
    match op {
        BinOp::And | BinOp::Imp => both(alloc, first, where_true(alloc, left, second)?),
        BinOp::Or => both(alloc, first, where_false(alloc, left, second)?),
        _ => both(alloc, first, second),
    }
}

// `not(divisor = 0)`
#[tactic(auto, using(bk_bind::proofs::Within::parts_within))]
pub(crate) fn not_zero(alloc: Global, divisor: &Form) -> Result<Form, BindFault>
    ensures value { IfOk result (λ f. f ≡ not_zero divisor.now) }
    ensures too_large { result ≡ Err TooLarge → IsWithinLimits (not_zero divisor.now) → ⊥ }
{
    let equal = binary(alloc, BinOp::Eq, divisor.copy(alloc)?, zero(alloc)?)?;
    unary(alloc, UnOp::Not, equal)
}

// `0 <= number & 0 < divisor`
#[tactic(auto, using(bk_bind::proofs::Within::parts_within))]
pub(crate) fn has_remainder(alloc: Global, number: &Form, divisor: &Form) -> Result<Form, BindFault>
    ensures value { IfOk result (λ f. f ≡ has_remainder number.now divisor.now) }
    ensures too_large { result ≡ Err TooLarge → IsWithinLimits (has_remainder number.now divisor.now) → ⊥ }
{
    let not_negative = binary(alloc, BinOp::Le, zero(alloc)?, number.copy(alloc)?)?;
    let positive = binary(alloc, BinOp::Lt, zero(alloc)?, divisor.copy(alloc)?)?;
    binary(alloc, BinOp::And, not_negative, positive)
}

// `0`
pub(crate) fn zero(alloc: Global) -> Result<Form, Memory>
    ensures { IfOk result (λ f. f ≡ literal (pos 0)) }
{
    Form::make(alloc, Part::Int(0))
}
