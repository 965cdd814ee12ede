//! The code of expressions and conditions. Functions go down a formula by calling each other, as deep as it is high, which its
//! type bounds.

ghost use Rattle.std.specs.Prelude.{◌≡◌, ◌+◌, ◌≤◌, ◌^◌, ◌-◌, ◌++◌, [], ◌∷◌, min, length, OnOk};
ghost use Rattle.bk_form.specs.declared.operator.BinOp.TheVariants.{And as Both, Or as Either};
ghost use Rattle.bk_b0.specs.CodeUnit.{unit_places};
ghost use Rattle.bk_b0.specs.Places.{placed_value};
ghost use Rattle.bk_gen.specs.Executed.{IsOperator, IsArrayAt, HasCode, IsReady, sign_code, calculation, operated, read_code};
ghost use Rattle.bk_gen.specs.Sizes.{sign_size, operator_size, value_size};

use crate::array::add_read;
use crate::jumps::{set_jump, set_test};
use crate::leaf::leaf;
use bk_b0::B0Unit;
use bk_code::{Inst, Memory};
use bk_form::{BinOp, Form, UnOp, View};
use bk_limits::MOST_INSTRUCTIONS;

// How many instructions the code of an expression or a condition has, or 2^64 - 1 if they are more.
pub(crate) fn value_size(form: &Form) -> u64
    ensures { result ≡ min (value_size form.now) (2 ^ 64 - 1) }
{
    match form.view() {
        View::Un(op, operand) => value_size(operand).saturating_add(sign_size(op)),
        View::Bin(op, left, right) => {
            let operands = value_size(left).saturating_add(value_size(right));
            operands.saturating_add(operator_size(op))
        }
        _ => 1,
    }
}

// How many instructions an operator on one formula has beside those of its operand.
fn sign_size(op: UnOp) -> u64
    ensures { result ≡ sign_size op }
{
    match op {
        UnOp::BoolOf => 0,
        _ => 1,
    }
}

// How many instructions an operator on two formulas has beside those of its operands.
fn operator_size(op: BinOp) -> u64
    ensures { result ≡ operator_size op }
{
    match op {
        BinOp::And | BinOp::Or => 3,
        BinOp::Apply => 0,
        _ => 1,
    }
}

// Adds the code that leaves a formula's number on the stack, 0 or 1 for a condition.
#[cycle(value)]
#[tactic(auto, using(crate::proofs::Operated::signed, crate::proofs::Operated::operation_is, crate::proofs::Lengths::value_long))]
pub(crate) fn add_value(unit: &B0Unit, form: &Form, code: &mut Vec<Inst>) -> Result<(), Memory>
    requires ready { IsReady unit.now }
    requires has { HasCode (unit_places unit.now) form.now }
    requires short { length code.old.items + value_size form.now ≤ MOST_INSTRUCTIONS }
    ensures { OnOk result (code.new.items ≡ code.old.items ++ placed_value (unit_places unit.now) form.now) }
{
    match form.view() {
        View::Un(op, operand) => {
            add_value(unit, operand, code)?;
            add_sign(op, code)?;
            Ok(())
        }
        View::Bin(op, left, right) => add_operation(unit, op, left, right, code),
        _ => {
            code.push(leaf(unit, form))?;
            Ok(())
        }
    }
}

// Adds the instruction of not or of unary minus, and none for bool.
fn add_sign(op: UnOp, code: &mut Vec<Inst>) -> Result<(), Memory>
    ensures { OnOk result (code.new.items ≡ code.old.items ++ sign_code op) }
{
    match op {
        UnOp::Neg => {
            code.push(Inst::Neg)?;
            Ok(())
        }
        UnOp::Not => {
            code.push(Inst::Not)?;
            Ok(())
        }
        _ => Ok(()),
    }
}

// Adds the code of an operator on two formulas.
#[cycle(value)]
fn add_operation(
    unit: &B0Unit,
    op: BinOp,
    left: &Form,
    right: &Form,
    code: &mut Vec<Inst>,
) -> Result<(), Memory>
    requires ready { IsReady unit.now }
    requires has_left { HasCode (unit_places unit.now) left.now }
    requires has_right { HasCode (unit_places unit.now) right.now }
    requires has { IsOperator (unit_places unit.now) op left.now }
    requires short { length code.old.items + (value_size left.now + value_size right.now + operator_size op) ≤ MOST_INSTRUCTIONS }
    ensures { OnOk result (code.new.items ≡ code.old.items ++ operated (unit_places unit.now) op left.now right.now) }
{
    match op {
        BinOp::And => add_both(unit, left, right, code),
        BinOp::Or => add_either(unit, left, right, code),
        BinOp::Apply => add_element(unit, left, right, code),
        _ => add_calculation(unit, op, left, right, code),
    }
}

// Adds the code of two numbers and of an instruction for them.
#[cycle(value)]
fn add_calculation(
    unit: &B0Unit,
    op: BinOp,
    left: &Form,
    right: &Form,
    code: &mut Vec<Inst>,
) -> Result<(), Memory>
    requires ready { IsReady unit.now }
    requires has_left { HasCode (unit_places unit.now) left.now }
    requires has_right { HasCode (unit_places unit.now) right.now }
    requires short { length code.old.items + (value_size left.now + value_size right.now) ≤ MOST_INSTRUCTIONS }
    ensures { OnOk result (code.new.items ≡ code.old.items
        ++ (placed_value (unit_places unit.now) left.now ++ placed_value (unit_places unit.now) right.now ++ calculation op ∷ [])) }
{
    add_value(unit, left, code)?;
    add_value(unit, right, code)?;
    code.push(instruction(op))?;
    Ok(())
}

// The instruction of an operator on two numbers.
fn instruction(op: BinOp) -> Inst
    ensures { result ≡ calculation op }
{
    match op {
        BinOp::Add => Inst::Add,
        BinOp::Sub => Inst::Sub,
        BinOp::Mul => Inst::Mul,
        BinOp::Div => Inst::Div,
        BinOp::Mod => Inst::Mod,
        BinOp::Eq => Inst::Eq,
        BinOp::Lt => Inst::Lt,
        _ => Inst::Le,
    }
}

// Adds the code that reads an array at an index.
#[cycle(value)]
fn add_element(
    unit: &B0Unit,
    array: &Form,
    index: &Form,
    code: &mut Vec<Inst>,
) -> Result<(), Memory>
    requires ready { IsReady unit.now }
    requires has_index { HasCode (unit_places unit.now) index.now }
    requires array { IsArrayAt (unit_places unit.now) array.now }
    requires short { length code.old.items + value_size index.now ≤ MOST_INSTRUCTIONS }
    ensures { OnOk result (code.new.items ≡ code.old.items
        ++ (placed_value (unit_places unit.now) index.now ++ read_code (unit_places unit.now) array.now)) }
{
    add_value(unit, index, code)?;
    add_read(unit, array, code)?;
    Ok(())
}

// Adds the code of `p & q`: where p is false, q is passed over.
#[cycle(value)]
fn add_both(unit: &B0Unit, left: &Form, right: &Form, code: &mut Vec<Inst>) -> Result<(), Memory>
    requires ready { IsReady unit.now }
    requires has_left { HasCode (unit_places unit.now) left.now }
    requires has_right { HasCode (unit_places unit.now) right.now }
    requires short { length code.old.items + (value_size left.now + value_size right.now + 3) ≤ MOST_INSTRUCTIONS }
    ensures { OnOk result (code.new.items ≡ code.old.items ++ operated (unit_places unit.now) Both left.now right.now) }
{
    add_value(unit, left, code)?;
    let test = code.len();
    code.push(Inst::JumpZero(0))?;
    add_value(unit, right, code)?;
    code.push(Inst::Jump(2))?;
    set_test(code, test);
    code.push(Inst::Push(0))?;
    Ok(())
}

// Adds the code of `p or q`: where p is true, q is passed over.
#[cycle(value)]
fn add_either(unit: &B0Unit, left: &Form, right: &Form, code: &mut Vec<Inst>) -> Result<(), Memory>
    requires ready { IsReady unit.now }
    requires has_left { HasCode (unit_places unit.now) left.now }
    requires has_right { HasCode (unit_places unit.now) right.now }
    requires short { length code.old.items + (value_size left.now + value_size right.now + 3) ≤ MOST_INSTRUCTIONS }
    ensures { OnOk result (code.new.items ≡ code.old.items ++ operated (unit_places unit.now) Either left.now right.now) }
{
    add_value(unit, left, code)?;
    code.push(Inst::JumpZero(3))?;
    code.push(Inst::Push(1))?;
    let decided = code.len();
    code.push(Inst::Jump(0))?;
    add_value(unit, right, code)?;
    set_jump(code, decided);
    Ok(())
}
