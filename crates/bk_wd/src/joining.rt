//! Conditions put together. A condition that is `btrue` is left out.

ghost use Rattle.std.specs.Prelude.{◌≡◌, ◌↔◌, Err, IfOk, IsTrue};
ghost use Rattle.bk_form.specs.Formula.{btrue, unary};
ghost use Rattle.bk_form.specs.declared.operator.UnOp.TheVariants.{Not};
ghost use Rattle.bk_bind.specs.Limits.{IsWithinLimits};
ghost use Rattle.bk_bind.specs.declared.error.BindFault.TheVariants.{TooLarge};
ghost use Rattle.bk_wd.specs.Joining.{both, where_true, all_over};

use bk_bind::{BindFault, binary, for_all, unary};
use bk_form::{BinOp, Form, Part, Ty, UnOp, View};
use bk_io::Memory;
use std::alloc::Global;

/// `btrue`: nothing is asked.
pub fn nothing(alloc: Global) -> Result<Form, Memory>
    ensures { IfOk result (λ f. f ≡ btrue) }
{
    Form::make(alloc, Part::True)
}

/// Whether it is `btrue`.
pub fn is_true(form: &Form) -> bool
    ensures { IsTrue result ↔ (form.now ≡ btrue) }
{
    matches!(form.view(), View::True)
}

/// `first & second`, where a side that is `btrue` is left out.
#[tactic(auto, using(crate::proofs::Within::joined_conditions))]
pub fn both(alloc: Global, first: Form, second: Form) -> Result<Form, BindFault>
    ensures value { IfOk result (λ f. f ≡ both first second) }
    ensures too_large { result ≡ Err TooLarge → IsWithinLimits (both first second) → ⊥ }
{
    if is_true(&first) {
        return Ok(second);
    }
    if is_true(&second) {
        return Ok(first);
    }
    binary(alloc, BinOp::And, first, second)
}

/// `test => form`; `btrue` where `form` is, and `form` where `test` is `btrue`.
#[tactic(auto, using(crate::proofs::Within::joined_conditions))]
pub fn where_true(alloc: Global, test: &Form, form: Form) -> Result<Form, BindFault>
    ensures value { IfOk result (λ f. f ≡ where_true test.now form) }
    ensures too_large { result ≡ Err TooLarge → IsWithinLimits (where_true test.now form) → ⊥ }
{
    if is_true(&form) || is_true(test) {
        return Ok(form);
    }
    binary(alloc, BinOp::Imp, test.copy(alloc)?, form)
}

/// `not(test) => form`, and `btrue` where `form` is.
#[tactic(auto, using(crate::proofs::Within::joined_conditions))]
pub fn where_false(alloc: Global, test: &Form, form: Form) -> Result<Form, BindFault>
    ensures value { IfOk result (λ f. f ≡ where_true (unary Not test.now) form) }
    ensures too_large { result ≡ Err TooLarge → IsWithinLimits (where_true (unary Not test.now) form) → ⊥ }
{
    if is_true(&form) {
        return Ok(form);
    }
    let negated = unary(alloc, UnOp::Not, test.copy(alloc)?)?;
    binary(alloc, BinOp::Imp, negated, form)
}

/// `!x.form` over values of these types, and `btrue` where `form` is.
#[tactic(auto, using(crate::proofs::Within::joined_conditions))]
pub fn all_over(alloc: Global, types: &[Ty], form: Form) -> Result<Form, BindFault>
    ensures value { IfOk result (λ f. f ≡ all_over types.now form) }
    ensures too_large { result ≡ Err TooLarge → IsWithinLimits (all_over types.now form) → ⊥ }
{
    if is_true(&form) {
        return Ok(form);
    }
    for_all(alloc, types, form)
}
