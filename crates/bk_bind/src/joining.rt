//! Formulas made of one or two others, within the limits.

ghost use Rattle.std.specs.Prelude.{◌≡◌, Err, IfOk, OnOk};
ghost use Rattle.bk_form.specs.Formula.{unary, binary, for_all, for_some};
ghost use Rattle.bk_bind.specs.Limits.{IsWithinLimits};
ghost use Rattle.bk_bind.specs.declared.error.BindFault.TheVariants.{TooLarge};

use crate::error::BindFault;
use bk_form::{BinOp, Form, Part, Ty, UnOp};
use bk_limits::{GREATEST_HEIGHT, MOST_NODES};
use std::alloc::Global;

/// The same formula, where it is within the limits.
pub fn bounded(form: Form) -> Result<Form, BindFault>
    ensures value { IfOk result (λ f. f ≡ form) }
    ensures within { OnOk result (IsWithinLimits form) }
    ensures too_large { result ≡ Err TooLarge → IsWithinLimits form → ⊥ }
{
    if form.size() > MOST_NODES || form.depth() > GREATEST_HEIGHT {
        return Err(BindFault::TooLarge);
    }
    Ok(form)
}

/// The formula of an operator and its operand.
pub fn unary(alloc: Global, op: UnOp, operand: Form) -> Result<Form, BindFault>
    ensures value { IfOk result (λ f. f ≡ unary op operand) }
    ensures within { OnOk result (IsWithinLimits (unary op operand)) }
    ensures too_large { result ≡ Err TooLarge → IsWithinLimits (unary op operand) → ⊥ }
{
    if operand.size() >= MOST_NODES || operand.depth() >= GREATEST_HEIGHT {
        return Err(BindFault::TooLarge);
    }
    Ok(Form::make(alloc, Part::Un(op, operand))?)
}

/// The formula of an operator and its left and right operand.
pub fn binary(alloc: Global, op: BinOp, left: Form, right: Form) -> Result<Form, BindFault>
    ensures value { IfOk result (λ f. f ≡ binary op left right) }
    ensures within { OnOk result (IsWithinLimits (binary op left right)) }
    ensures too_large { result ≡ Err TooLarge → IsWithinLimits (binary op left right) → ⊥ }
{
    if left.size() + right.size() >= MOST_NODES {
        return Err(BindFault::TooLarge);
    }
    if left.depth().max(right.depth()) >= GREATEST_HEIGHT {
        return Err(BindFault::TooLarge);
    }
    Ok(Form::make(alloc, Part::Bin(op, left, right))?)
}

/// The formula `!x.body` over values of these types.
pub fn for_all(alloc: Global, types: &[Ty], body: Form) -> Result<Form, BindFault>
    ensures value { IfOk result (λ f. f ≡ for_all types.now body) }
    ensures within { OnOk result (IsWithinLimits (for_all types.now body)) }
    ensures too_large { result ≡ Err TooLarge → IsWithinLimits (for_all types.now body) → ⊥ }
{
    if body.size() >= MOST_NODES || body.depth() >= GREATEST_HEIGHT {
        return Err(BindFault::TooLarge);
    }
    Ok(Form::make(alloc, Part::All(Ty::copy_all(types, alloc)?, body))?)
}

/// The formula `#x.body` over values of these types.
pub fn for_some(alloc: Global, types: &[Ty], body: Form) -> Result<Form, BindFault>
    ensures value { IfOk result (λ f. f ≡ for_some types.now body) }
    ensures within { OnOk result (IsWithinLimits (for_some types.now body)) }
    ensures too_large { result ≡ Err TooLarge → IsWithinLimits (for_some types.now body) → ⊥ }
{
    if body.size() >= MOST_NODES || body.depth() >= GREATEST_HEIGHT {
        return Err(BindFault::TooLarge);
    }
    Ok(Form::make(alloc, Part::Some(Ty::copy_all(types, alloc)?, body))?)
}
