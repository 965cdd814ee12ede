//! The code of statements. Functions go down a statement by calling each other, as deep as statements are nested.

ghost use Rattle.std.specs.Prelude.{◌≡◌, ◌+◌, ◌≤◌, ◌^◌, ◌-◌, ◌++◌, min, length, Some, OnOk};
ghost use Rattle.bk_form.specs.ArrayTable.{row_of};
ghost use Rattle.bk_form.specs.Formula.{btrue};
ghost use Rattle.bk_gsl.specs.Substitution.{if_else, loop};
ghost use Rattle.bk_b0.specs.CodeUnit.{unit_places};
ghost use Rattle.bk_b0.specs.Places.{placed_write, placed_value, placed_store, placed_assignment, placed_statement, placed_block};
ghost use Rattle.bk_gen.specs.Executed.{HasCode, HasChangeCode, HasArrayCode, HasStoreCode, HasAssignmentCode};
ghost use Rattle.bk_gen.specs.Executed.{HasStatementCode, IsReady, change_code, written_code};
ghost use Rattle.bk_gen.specs.Sizes.{value_size, change_size, written_size, store_size, assignment_size, statement_size, block_size};

use crate::array::{add_fill, left, operand, right, storing};
use crate::jumps::{add_jump_back, set_jump, set_test};
use crate::leaf::slot_of;
use crate::value::{add_value, value_size};
use bk_b0::{B0Unit, index_count};
use bk_code::{Inst, Memory};
use bk_form::{ArrayRow, BinOp, Form, View};
use bk_gsl::{Sub, SubNode};
use bk_limits::MOST_INSTRUCTIONS;

// ---- how many instructions there are

// How many instructions a statement's code has, with its Ret, or 2^64 - 1 if they are more.
pub(crate) fn block_size(unit: &B0Unit, sub: &Sub) -> u64
    ensures { result ≡ min (block_size (unit_places unit.now) sub.now) (2 ^ 64 - 1) }
{
    statement_size(unit, sub).saturating_add(1)
}

// How many instructions a statement's code has, or 2^64 - 1 if they are more.
fn statement_size(unit: &B0Unit, sub: &Sub) -> u64
    ensures { result ≡ min (statement_size (unit_places unit.now) sub.now) (2 ^ 64 - 1) }
{
    match &*sub.node {
        SubNode::Assign(terms) => assignment_size(unit, terms),
        SubNode::Seq(first, second) => {
            statement_size(unit, first).saturating_add(statement_size(unit, second))
        }
        SubNode::Any(_, body) | SubNode::Assert(_, body) => statement_size(unit, body),
        SubNode::If(test, yes, no) => {
            let branches = statement_size(unit, yes).saturating_add(statement_size(unit, no));
            value_size(test).saturating_add(branches).saturating_add(2)
        }
        SubNode::While { test, body, .. } => {
            let turn = value_size(test).saturating_add(statement_size(unit, body));
            turn.saturating_add(2)
        }
        _ => 0,
    }
}

// How many instructions an assignment's code has, or 2^64 - 1 if they are more.
fn assignment_size(unit: &B0Unit, terms: &[(u32, Form)]) -> u64
    ensures { result ≡ min (assignment_size (unit_places unit.now) terms.now) (2 ^ 64 - 1) }
{
    match terms {
        [(variable, term)] => store_size(unit, *variable, term),
        _ => 0,
    }
}

// How many instructions set a variable to a term, or 2^64 - 1 if they are more.
fn store_size(unit: &B0Unit, variable: u32, term: &Form) -> u64
    ensures { result ≡ min (store_size ((unit_places unit.now).cells variable) (row_of unit.now.arrays variable) term.now) (2 ^ 64 - 1) }
{
    match unit.arrays().row(variable) {
        Some(row) => written_size(index_count(unit.table(), row.domain), term),
        None => value_size(term).saturating_add(1),
    }
}

// How many instructions write a term to an array with so many cells, or 2^64 - 1 if they are more.
fn written_size(cells: u128, term: &Form) -> u64
    ensures { result ≡ min (written_size cells term.now) (2 ^ 64 - 1) }
{
    match term.view() {
        View::Bin(op, _, change) => change_size(cells, op, operand(change)),
        _ => 0,
    }
}

// How many instructions a fill or a write of a pair has, or 2^64 - 1 if they are more.
fn change_size(cells: u128, op: BinOp, part: &Form) -> u64
    ensures { result ≡ min (change_size cells op part.now) (2 ^ 64 - 1) }
{
    match op {
        BinOp::Times => fill_size(cells),
        _ => {
            let operands = value_size(left(part)).saturating_add(value_size(right(part)));
            operands.saturating_add(1)
        }
    }
}

// Twice a number, or 2^64 - 1 if that is more.
fn fill_size(cells: u128) -> u64
    ensures { result ≡ min (cells + cells) (2 ^ 64 - 1) }
{
    if cells > u128::from(u64::MAX / 2) {
        return u64::MAX;
    }
    cells as u64 * 2
}

// ---- the instructions

// Adds a statement's code and a Ret.
#[tactic(auto, using(crate::proofs::Lengths::statement_long))]
pub(crate) fn add_block(unit: &B0Unit, sub: &Sub, code: &mut Vec<Inst>) -> Result<(), Memory>
    requires ready { IsReady unit.now }
    requires has { HasStatementCode (unit_places unit.now) sub.now }
    requires short { length code.old.items + block_size (unit_places unit.now) sub.now ≤ MOST_INSTRUCTIONS }
    ensures { OnOk result (code.new.items ≡ code.old.items ++ placed_block (unit_places unit.now) sub.now) }
{
    add_statement(unit, sub, code)?;
    code.push(Inst::Ret)?;
    Ok(())
}

// Adds a statement's code.
#[cycle(statement)]
#[tactic(auto, using(crate::proofs::Lengths::statement_long))]
fn add_statement(unit: &B0Unit, sub: &Sub, code: &mut Vec<Inst>) -> Result<(), Memory>
    requires ready { IsReady unit.now }
    requires has { HasStatementCode (unit_places unit.now) sub.now }
    requires short { length code.old.items + statement_size (unit_places unit.now) sub.now ≤ MOST_INSTRUCTIONS }
    ensures { OnOk result (code.new.items ≡ code.old.items ++ placed_statement (unit_places unit.now) sub.now) }
{
    match &*sub.node {
        SubNode::Assign(terms) => add_assignment(unit, terms, code),
        SubNode::If(test, yes, no) => add_branches(unit, test, yes, no, code),
        SubNode::While { test, body, .. } => add_loop(unit, test, body, code),
        SubNode::Seq(first, second) => {
            add_statement(unit, first, code)?;
            add_statement(unit, second, code)?;
            Ok(())
        }
        SubNode::Any(_, body) => add_statement(unit, body, code),
        SubNode::Assert(_, body) => add_statement(unit, body, code),
        _ => Ok(()),
    }
}

// Adds the code of `IF test THEN yes ELSE no END`.
#[cycle(statement)]
fn add_branches(
    unit: &B0Unit,
    test: &Form,
    yes: &Sub,
    no: &Sub,
    code: &mut Vec<Inst>,
) -> Result<(), Memory>
    requires ready { IsReady unit.now }
    requires has_test { HasCode (unit_places unit.now) test.now }
    requires has_yes { HasStatementCode (unit_places unit.now) yes.now }
    requires has_no { HasStatementCode (unit_places unit.now) no.now }
    requires short { length code.old.items + (value_size test.now
        + (statement_size (unit_places unit.now) yes.now + statement_size (unit_places unit.now) no.now) + 2) ≤ MOST_INSTRUCTIONS }
    ensures { OnOk result (code.new.items ≡ code.old.items
        ++ placed_statement (unit_places unit.now) (if_else test.now yes.now no.now)) }
{
    add_value(unit, test, code)?;
    let start = code.len();
    code.push(Inst::JumpZero(0))?;
    add_statement(unit, yes, code)?;
    let end = code.len();
    code.push(Inst::Jump(0))?;
    set_test(code, start);
    add_statement(unit, no, code)?;
    set_jump(code, end);
    Ok(())
}

// Adds the code of `WHILE test DO body END`: after the body a jump leads back to the test.
#[cycle(statement)]
fn add_loop(unit: &B0Unit, test: &Form, body: &Sub, code: &mut Vec<Inst>) -> Result<(), Memory>
    requires ready { IsReady unit.now }
    requires has_test { HasCode (unit_places unit.now) test.now }
    requires has_body { HasStatementCode (unit_places unit.now) body.now }
    requires short { length code.old.items
        + (value_size test.now + statement_size (unit_places unit.now) body.now + 2) ≤ MOST_INSTRUCTIONS }
    ensures { OnOk result (code.new.items ≡ code.old.items
        ++ placed_statement (unit_places unit.now) (loop test.now body.now btrue btrue)) }
{
    let again = code.len();
    add_value(unit, test, code)?;
    let start = code.len();
    code.push(Inst::JumpZero(0))?;
    add_statement(unit, body, code)?;
    add_jump_back(code, again)?;
    set_test(code, start);
    Ok(())
}

// Adds the code of an assignment to one variable.
#[tactic(auto, using(crate::proofs::Operated::one_assigned))]
fn add_assignment(unit: &B0Unit, terms: &[(u32, Form)], code: &mut Vec<Inst>) -> Result<(), Memory>
    requires ready { IsReady unit.now }
    requires has { HasAssignmentCode (unit_places unit.now) terms.now }
    requires short { length code.old.items + assignment_size (unit_places unit.now) terms.now ≤ MOST_INSTRUCTIONS }
    ensures { OnOk result (code.new.items ≡ code.old.items ++ placed_assignment (unit_places unit.now) terms.now) }
{
    match terms {
        [(variable, term)] => add_store(unit, *variable, term, code),
        _ => Ok(()),
    }
}

// Adds the code that sets a variable to a term.
fn add_store(unit: &B0Unit, variable: u32, term: &Form, code: &mut Vec<Inst>) -> Result<(), Memory>
    requires ready { IsReady unit.now }
    requires has { HasStoreCode (unit_places unit.now) variable (row_of unit.now.arrays variable) term.now }
    requires short { length code.old.items
        + store_size ((unit_places unit.now).cells variable) (row_of unit.now.arrays variable) term.now ≤ MOST_INSTRUCTIONS }
    ensures { OnOk result (code.new.items ≡ code.old.items
        ++ placed_store (unit_places unit.now) variable (row_of unit.now.arrays variable) term.now) }
{
    match unit.arrays().row(variable) {
        Some(row) => add_written(unit, row, variable, term, code),
        None => {
            add_value(unit, term, code)?;
            code.push(Inst::Store(slot_of(unit, variable)))?;
            Ok(())
        }
    }
}

// Adds the code that writes a term to an array: a fill, or an element.
fn add_written(
    unit: &B0Unit,
    row: &ArrayRow,
    variable: u32,
    term: &Form,
    code: &mut Vec<Inst>,
) -> Result<(), Memory>
    requires ready { IsReady unit.now }
    requires found { row_of unit.now.arrays variable ≡ Some row.now }
    requires has { HasArrayCode (unit_places unit.now) term.now }
    requires short { length code.old.items + written_size ((unit_places unit.now).cells variable) term.now ≤ MOST_INSTRUCTIONS }
    ensures { OnOk result (code.new.items ≡ code.old.items ++ written_code (unit_places unit.now) variable row.now term.now) }
{
    match term.view() {
        View::Bin(op, _, change) => add_change(unit, row, variable, op, operand(change), code),
        _ => Ok(()),
    }
}

// Adds the code of a fill with a value, or of a write of a pair of an index and a value.
fn add_change(
    unit: &B0Unit,
    row: &ArrayRow,
    variable: u32,
    op: BinOp,
    part: &Form,
    code: &mut Vec<Inst>,
) -> Result<(), Memory>
    requires ready { IsReady unit.now }
    requires found { row_of unit.now.arrays variable ≡ Some row.now }
    requires has { HasChangeCode (unit_places unit.now) op part.now }
    requires short { length code.old.items + change_size ((unit_places unit.now).cells variable) op part.now ≤ MOST_INSTRUCTIONS }
    ensures { OnOk result (code.new.items ≡ code.old.items ++ change_code (unit_places unit.now) variable row.now op part.now) }
{
    match op {
        BinOp::Times => add_fill(unit, row, variable, part, code),
        _ => add_element_write(unit, row, variable, left(part), right(part), code),
    }
}

// Adds the code of `f(index) := value`.
fn add_element_write(
    unit: &B0Unit,
    row: &ArrayRow,
    variable: u32,
    index: &Form,
    value: &Form,
    code: &mut Vec<Inst>,
) -> Result<(), Memory>
    requires ready { IsReady unit.now }
    requires found { row_of unit.now.arrays variable ≡ Some row.now }
    requires has_index { HasCode (unit_places unit.now) index.now }
    requires has_value { HasCode (unit_places unit.now) value.now }
    requires short { length code.old.items + (value_size index.now + value_size value.now + 1) ≤ MOST_INSTRUCTIONS }
    ensures { OnOk result (code.new.items ≡ code.old.items
        ++ (placed_value (unit_places unit.now) index.now ++ placed_value (unit_places unit.now) value.now
        ++ placed_write (unit_places unit.now) variable row.now)) }
{
    add_value(unit, index, code)?;
    add_value(unit, value, code)?;
    code.push(storing(unit, variable, row.domain))?;
    Ok(())
}
