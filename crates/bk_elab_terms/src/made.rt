// Formulas of an operator and its operands, whose size only memory limits: no term within the limits of a file comes
// near the most nodes that a formula may have.

ghost use Rattle.std.specs.Prelude.{◌≡◌, IfOk};
ghost use Rattle.bk_form.specs.Formula.{unary, binary};

use bk_form::{BinOp, Form, Part, UnOp};
use bk_io::Memory;
use std::alloc::Global;

/// The greatest size of a formula: 32 bits count its nodes.
pub(crate) const GREATEST_SIZE: u64 = 4_294_967_295;

/// The formula of an operator and its operand.
pub(crate) fn unary(alloc: Global, op: UnOp, operand: Form) -> Result<Form, Memory>
    ensures { IfOk result (λ f. f ≡ unary op operand) }
{
    if operand.size() >= GREATEST_SIZE {
        return Err(Memory);
    }
    Form::make(alloc, Part::Un(op, operand))
}

/// The formula of an operator and its left and right operand.
pub(crate) fn binary(alloc: Global, op: BinOp, left: Form, right: Form) -> Result<Form, Memory>
    ensures { IfOk result (λ f. f ≡ binary op left right) }
{
    if left.size() + right.size() >= GREATEST_SIZE {
        return Err(Memory);
    }
    Form::make(alloc, Part::Bin(op, left, right))
}
