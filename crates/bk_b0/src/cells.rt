//! The cells of an implementation's variables.

ghost use Rattle.std.specs.Prelude.{◌≡◌, pos, ◌+ℤ◌, ◌-ℤ◌, ◌++◌, length, map, IfOk, OnOk};
ghost use Rattle.bk_form.specs.ArrayTable.{row_of};
ghost use Rattle.bk_form.specs.Table.{set_size};
ghost use Rattle.bk_form.specs.Operators.{count_of};
ghost use Rattle.bk_dev.specs.Layout.{index_count, row_cells, locals, operation_variables};
ghost use Rattle.bk_b0.specs.CodeUnit.{slot_with};

use crate::slot::Slot;
use bk_dev::{Body, Level, OpHead};
use bk_form::{ArrayDomain, Arrays, VarTable};
use bk_gsl::{Sub, SubNode};
use bk_io::Memory;
use std::alloc::Global;

// The variables with cells, in the cells' order, with their numbers of cells.
pub(crate) fn all_slots(
    alloc: Global,
    table: &VarTable,
    arrays: &Arrays,
    heads: &[OpHead],
    level: &Level,
) -> Result<Vec<Slot>, Memory>
    requires { length heads.now ≡ length level.now.bodies }
    ensures { IfOk result (λ slots. slots.items ≡ map (slot_with table.now arrays.now)
        (level.now.vars ++ locals level.now.init ++ operation_variables heads.now level.now.bodies)) }
{
    let variables = variables_with_cells(alloc, heads, level)?;
    with_cells(alloc, table, arrays, variables.as_slice())
}

// These variables with their numbers of cells.
fn with_cells(
    alloc: Global,
    table: &VarTable,
    arrays: &Arrays,
    variables: &[u32],
) -> Result<Vec<Slot>, Memory>
    ensures { IfOk result (λ slots. slots.items ≡ map (slot_with table.now arrays.now) variables.now) }
{
    let mut slots = Vec::new(alloc);
    for variable in variables {
        slots.push(Slot {
            variable: *variable,
            cells: cells_of(table, arrays, *variable),
        })?;
    }
    Ok(slots)
}

// The level's variables, the initialisation's locals, and those of each operation.
fn variables_with_cells(alloc: Global, heads: &[OpHead], level: &Level) -> Result<Vec<u32>, Memory>
    requires { length heads.now ≡ length level.now.bodies }
    ensures { IfOk result (λ variables. variables.items
        ≡ level.now.vars ++ locals level.now.init ++ operation_variables heads.now level.now.bodies) }
{
    let mut variables = Vec::from_slice(alloc, &level.vars)?;
    add_locals(&level.init, &mut variables)?;
    add_parameters(heads, &level.bodies, &mut variables)?;
    Ok(variables)
}

// Adds the inputs, the outputs and the locals of each operation.
fn add_parameters(heads: &[OpHead], bodies: &[Body], variables: &mut Vec<u32>) -> Result<(), Memory>
    requires { length heads.now ≡ length bodies.now }
    ensures { OnOk result (variables.new.items ≡ variables.old.items ++ operation_variables heads.now bodies.now) }
{
    for (number, body) in bodies.iter().enumerate() {
        let head = &heads[number];
        variables.extend_from_slice(&head.inputs)?;
        variables.extend_from_slice(&body.outputs)?;
        add_locals(&body.sub, variables)?;
    }
    Ok(())
}

// Adds the local variables of a substitution, in the order of the text.
fn add_locals(sub: &Sub, variables: &mut Vec<u32>) -> Result<(), Memory>
    ensures { OnOk result (variables.new.items ≡ variables.old.items ++ locals sub.now) }
{
    match &*sub.node {
        SubNode::Any(bound, body) => {
            variables.extend_from_slice(bound)?;
            add_locals(body, variables)
        }
        SubNode::Pre(_, body) | SubNode::Guard(_, body) | SubNode::Assert(_, body) => {
            add_locals(body, variables)
        }
        SubNode::While { body, .. } => add_locals(body, variables),
        SubNode::Choice(first, second)
        | SubNode::Seq(first, second)
        | SubNode::Par(first, second)
        | SubNode::If(_, first, second) => {
            add_locals(first, variables)?;
            add_locals(second, variables)
        }
        _ => Ok(()),
    }
}

// How many cells a variable has: one, or one for each index of an array.
fn cells_of(table: &VarTable, arrays: &Arrays, variable: u32) -> u128
    ensures { result ≡ row_cells table.now (row_of arrays.now variable) }
{
    match arrays.row(variable) {
        Some(row) => index_count(table, row.domain),
        None => 1,
    }
}

/// How many indices the domain of an array has.
pub fn index_count(table: &VarTable, domain: ArrayDomain) -> u128
    ensures { result ≡ index_count table.now domain }
{
    match domain {
        ArrayDomain::Interval { low, high } => interval_count(low, high),
        ArrayDomain::Bool => 2,
        ArrayDomain::Set(set) => set_count(table, set),
    }
}

// How many elements a set counts as having: one where it has no size yet.
#[tactic(auto, using(crate::proofs::SetCounts::counts))]
fn set_count(table: &VarTable, set: u32) -> u128
    ensures { result ≡ set_size table.now set }
{
    if set as usize >= table.sets() {
        return 0;
    }
    match table.size(set) {
        0 => 1,
        size => u128::from(size),
    }
}

// How many numbers there are from `low` to `high`.
fn interval_count(low: i64, high: i64) -> u128
    ensures { result ≡ count_of ((high +ℤ pos 1) -ℤ low) }
{
    if high < low {
        return 0;
    }
    (i128::from(high) - i128::from(low) + 1) as u128
}
