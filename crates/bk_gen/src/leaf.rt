//! The code of names and literals.

ghost use Rattle.std.specs.Prelude.{◌≡◌, ◌≤◌, [], ◌∷◌, All};
ghost use Rattle.bk_b0.specs.CodeUnit.{first_of, slots_cells, unit_places};
ghost use Rattle.bk_b0.specs.Kinds.{literal_number};
ghost use Rattle.bk_b0.specs.Places.{placed_name, placed_value};
ghost use Rattle.bk_gen.specs.Executed.{HasLeafCode, IsReady, constant_or_cell};

use bk_b0::{B0Unit, Slot};
use bk_code::Inst;
use bk_form::{Form, View};
use bk_limits::MOST_CELLS;

// The instruction that leaves the number of a name or a literal on the stack.
pub(crate) fn leaf(unit: &B0Unit, form: &Form) -> Inst
    requires ready { IsReady unit.now }
    requires has { HasLeafCode form.now }
    ensures { result ∷ [] ≡ placed_value (unit_places unit.now) form.now }
{
    match form.view() {
        View::Var(variable) => name(unit, variable),
        _ => Inst::Push(literal_number(form)),
    }
}

// A constant's value, and of every other name what its cell holds.
fn name(unit: &B0Unit, variable: u32) -> Inst
    requires ready { IsReady unit.now }
    ensures { result ∷ [] ≡ placed_name (unit_places unit.now) variable unit.now.values }
{
    let slot = slot_of(unit, variable);
    named(unit.values(), variable, slot)
}

// The first value of this constant, or what the cell holds.
fn named(values: &[(u32, Form)], variable: u32, slot: u32) -> Inst
    requires { All (λ c. HasLeafCode c.1) values.now }
    ensures { result ≡ constant_or_cell slot variable values.now }
{
    for (constant, value) in values {
        if variable == *constant {
            return Inst::Push(literal_number(value));
        }
    }
    Inst::Load(slot)
}

// The number of a literal, of TRUE or FALSE, or of an element.
fn literal_number(form: &Form) -> i64
    requires { HasLeafCode form.now }
    ensures { result ≡ literal_number form.now }
{
    match form.view() {
        View::Int(value) => value as i64,
        View::Bool(value) => i64::from(value),
        View::Elem { index, .. } => i64::from(index),
        _ => 0,
    }
}

// The first cell of a variable.
pub(crate) fn slot_of(unit: &B0Unit, variable: u32) -> u32
    requires { IsReady unit.now }
    ensures value { result ≡ first_of variable unit.now.slots }
    ensures few { result ≤ MOST_CELLS }
{
    first_cell(unit.slots(), variable)
}

// The first cell of a variable among these, or after them all.
fn first_cell(slots: &[Slot], variable: u32) -> u32
    requires { slots_cells slots.now ≤ MOST_CELLS }
    ensures value { result ≡ first_of variable slots.now }
    ensures few { result ≤ MOST_CELLS }
{
    let mut first = 0u128;
    for slot in slots {
        if variable == slot.variable {
            return first as u32;
        }
        first += slot.cells;
    }
    first as u32
}
