// Formulas from few words.

ghost use Rattle.std.specs.Prelude.{◌≡◌, IfOk};
ghost use Rattle.bk_form.specs.Formula.{variable, literal, unary, binary, btrue, formula_size};
ghost use Rattle.bk_form.specs.Codes.FormView.{made};
ghost use Rattle.bk_form.specs.declared.operator.BinOp.TheVariants.{In, Range};

use bk_form::{BinOp, Form, Part, UnOp};
use bk_io::Memory;
use std::alloc::Global;

// Larger formulas are not built.
const MOST: u64 = 1_000_000;

/// A formula that has no parts.
pub fn leaf(alloc: Global, part: Part) -> Result<Form, Memory>
    requires { formula_size (made part) ≡ 1 }
    ensures { IfOk result (λ f. f ≡ made part) }
{
    Form::make(alloc, part)
}

/// The variable of this number.
pub fn variable(alloc: Global, number: u32) -> Result<Form, Memory>
    ensures { IfOk result (λ f. f ≡ variable number) }
{
    Form::make(alloc, Part::Var(number))
}

/// A whole number.
pub fn literal(alloc: Global, value: i128) -> Result<Form, Memory>
    ensures { IfOk result (λ f. f ≡ literal value) }
{
    Form::make(alloc, Part::Int(value))
}

/// The predicate that always holds.
pub fn always(alloc: Global) -> Result<Form, Memory>
    ensures { IfOk result (λ f. f ≡ btrue) }
{
    Form::make(alloc, Part::True)
}

/// The formula of an operator and its operand, whose size only memory limits.
pub fn unary(alloc: Global, op: UnOp, operand: Form) -> Result<Form, Memory>
    ensures { IfOk result (λ f. f ≡ unary op operand) }
{
    if operand.size() > MOST {
        return Err(Memory);
    }
    Form::make(alloc, Part::Un(op, operand))
}

/// The formula of an operator and its left and right operand, whose size only memory limits.
pub fn binary(alloc: Global, op: BinOp, left: Form, right: Form) -> Result<Form, Memory>
    ensures { IfOk result (λ f. f ≡ binary op left right) }
{
    if left.size() + right.size() > MOST {
        return Err(Memory);
    }
    Form::make(alloc, Part::Bin(op, left, right))
}

/// `x op y`, where `x` and `y` are the variables of these numbers.
pub fn of_variables(alloc: Global, op: BinOp, x: u32, y: u32) -> Result<Form, Memory>
    ensures { IfOk result (λ f. f ≡ binary op (variable x) (variable y)) }
{
    let left = variable(alloc, x)?;
    let right = variable(alloc, y)?;
    Form::make(alloc, Part::Bin(op, left, right))
}

/// `x op value`, where `x` is the variable of this number.
pub fn with_number(alloc: Global, op: BinOp, x: u32, value: i128) -> Result<Form, Memory>
    ensures { IfOk result (λ f. f ≡ binary op (variable x) (literal value)) }
{
    let left = variable(alloc, x)?;
    let right = literal(alloc, value)?;
    Form::make(alloc, Part::Bin(op, left, right))
}

/// `low .. high`
pub fn interval(alloc: Global, low: i128, high: i128) -> Result<Form, Memory>
    ensures { IfOk result (λ f. f ≡ binary Range (literal low) (literal high)) }
{
    let low = literal(alloc, low)?;
    let high = literal(alloc, high)?;
    Form::make(alloc, Part::Bin(BinOp::Range, low, high))
}

/// `x : low .. high`, where `x` is the variable of this number.
pub fn within(alloc: Global, x: u32, low: i128, high: i128) -> Result<Form, Memory>
    ensures { IfOk result (λ f. f ≡ binary In (variable x) (binary Range (literal low) (literal high))) }
{
    let element = variable(alloc, x)?;
    let range = interval(alloc, low, high)?;
    Form::make(alloc, Part::Bin(BinOp::In, element, range))
}
