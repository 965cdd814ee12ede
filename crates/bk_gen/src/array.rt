//! The instructions of arrays.

ghost use Rattle.std.specs.Prelude.{◌≡◌, ◌≤◌, ◌+◌, ◌++◌, [], ◌∷◌, Some, OnOk};
ghost use Rattle.bk_form.specs.ArrayTable.{row_of};
ghost use Rattle.bk_dev.specs.Layout.{index_count};
ghost use Rattle.bk_code.specs.declared.instruction.Inst.TheVariants.{ALoad, AStore};
ghost use Rattle.bk_b0.specs.CodeUnit.{first_of, unit_places};
ghost use Rattle.bk_b0.specs.Places.{least_index, placed_load, placed_value, fill};
ghost use Rattle.bk_gen.specs.Executed.{HasLeafCode, IsReady, IsArrayAt, operand_of, left_of, right_of, read_code};

use crate::leaf::{leaf, slot_of};
use bk_b0::{B0Unit, index_count};
use bk_code::{Inst, Memory};
use bk_form::{ArrayDomain, ArrayRow, Form, View};
use bk_limits::MOST_CELLS;

// E of {E}, and any other formula itself.
pub(crate) fn operand(form: &Form) -> &Form
    ensures { result.now ≡ operand_of form.now }
{
    match form.view() {
        View::Un(_, operand) => operand,
        _ => form,
    }
}

// i of i |-> v.
pub(crate) fn left(form: &Form) -> &Form
    ensures { result.now ≡ left_of form.now }
{
    match form.view() {
        View::Bin(_, left, _) => left,
        _ => form,
    }
}

// v of i |-> v.
pub(crate) fn right(form: &Form) -> &Form
    ensures { result.now ≡ right_of form.now }
{
    match form.view() {
        View::Bin(_, _, right) => right,
        _ => form,
    }
}

// The least index of an array.
fn least_index(domain: ArrayDomain) -> i64
    ensures { result ≡ least_index domain }
{
    match domain {
        ArrayDomain::Interval { low, .. } => low,
        ArrayDomain::Bool | ArrayDomain::Set(_) => 0,
    }
}

// How many cells an array has.
pub(crate) fn cells_of(unit: &B0Unit, domain: ArrayDomain) -> u32
    requires { index_count unit.now.table domain ≤ MOST_CELLS }
    ensures { result ≡ index_count unit.now.table domain }
{
    index_count(unit.table(), domain) as u32
}

// Adds the code that reads an array, whose index is on the stack.
pub(crate) fn add_read(unit: &B0Unit, array: &Form, code: &mut Vec<Inst>) -> Result<(), Memory>
    requires ready { IsReady unit.now }
    requires array { IsArrayAt (unit_places unit.now) array.now }
    ensures { OnOk result (code.new.items ≡ code.old.items ++ read_code (unit_places unit.now) array.now) }
{
    match array.view() {
        View::Var(variable) => add_load(unit, variable, code),
        _ => Ok(()),
    }
}

// The same for an array by its number.
fn add_load(unit: &B0Unit, variable: u32, code: &mut Vec<Inst>) -> Result<(), Memory>
    requires ready { IsReady unit.now }
    ensures { OnOk result (code.new.items
        ≡ code.old.items ++ placed_load (unit_places unit.now) variable (row_of unit.now.arrays variable)) }
{
    match unit.arrays().row(variable) {
        Some(row) => {
            code.push(loading(unit, variable, row.domain))?;
            Ok(())
        }
        None => Ok(()),
    }
}

// The instruction that reads an array with this domain.
fn loading(unit: &B0Unit, variable: u32, domain: ArrayDomain) -> Inst
    requires ready { IsReady unit.now }
    requires few { index_count unit.now.table domain ≤ MOST_CELLS }
    ensures { result ≡ ALoad (first_of variable unit.now.slots) (least_index domain) (index_count unit.now.table domain) }
{
    Inst::ALoad {
        base: slot_of(unit, variable),
        low: least_index(domain),
        count: cells_of(unit, domain),
    }
}

// The instruction that writes to an array with this domain.
pub(crate) fn storing(unit: &B0Unit, variable: u32, domain: ArrayDomain) -> Inst
    requires ready { IsReady unit.now }
    requires few { index_count unit.now.table domain ≤ MOST_CELLS }
    ensures { result ≡ AStore (first_of variable unit.now.slots) (least_index domain) (index_count unit.now.table domain) }
{
    Inst::AStore {
        base: slot_of(unit, variable),
        low: least_index(domain),
        count: cells_of(unit, domain),
    }
}

// Adds the code that puts a value into each cell of an array, in order.
pub(crate) fn add_fill(
    unit: &B0Unit,
    row: &ArrayRow,
    variable: u32,
    value: &Form,
    code: &mut Vec<Inst>,
) -> Result<(), Memory>
    requires ready { IsReady unit.now }
    requires found { row_of unit.now.arrays variable ≡ Some row.now }
    requires has { HasLeafCode value.now }
    ensures { OnOk result (code.new.items ≡ code.old.items
        ++ fill (placed_value (unit_places unit.now) value.now) ((unit_places unit.now).first_cell variable) ((unit_places unit.now).cells variable)) }
{
    let value = leaf(unit, value);
    let first = slot_of(unit, variable);
    add_stores(value, first, cells_of(unit, row.domain), code)
}

// Adds the code that puts a value into so many cells, from this one on.
fn add_stores(value: Inst, first: u32, count: u32, code: &mut Vec<Inst>) -> Result<(), Memory>
    requires { first + count ≤ 2000000 }
    ensures { OnOk result (code.new.items ≡ code.old.items ++ fill (value ∷ []) first count) }
{
    for place in 0..count {
        code.push(value)?;
        code.push(Inst::Store(first + place))?;
    }
    Ok(())
}
