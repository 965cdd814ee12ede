//! The translation of an implementation to an image.

ghost use Rattle.std.specs.Prelude.{◌≡◌, ◌+◌, ◌-◌, ◌<◌, ◌≤◌, ◌^◌, ◌++◌, min, map, length, All, Err, IfOk, OnOk};
ghost use Rattle.bk_gsl.specs.State.{declared_type};
ghost use Rattle.bk_code.specs.Checks.{IsLoadable};
ghost use Rattle.bk_dev.specs.Development.{IsRange};
ghost use Rattle.bk_image.specs.Spelling.{HasSpelling};
ghost use Rattle.bk_b0.specs.CodeUnit.{slots_cells, unit_places, unit_code, unit_image};
ghost use Rattle.bk_b0.specs.Places.{kind_of_type, placed_parameter, placed_entries, placed_bodies};
ghost use Rattle.bk_gen.specs.Executed.{HasStatementCode, IsReady};
ghost use Rattle.bk_gen.specs.Sizes.{block_size, blocks_size};
ghost use Rattle.bk_gen.specs.Spelled.{PassesCells};
ghost use Rattle.bk_gen.specs.declared.error.GenFault.TheVariants.{CodeTooLong, TooManyCells};

use crate::GenFault;
use crate::fields::fits_fields;
use crate::leaf::slot_of;
use crate::names::element_names;
use crate::statement::{add_block, block_size};
use bk_b0::{B0Unit, Slot};
use bk_code::{
    CellKind, Code, ElemNames, Image, Inst, Memory, NameText, OpEntries, OpEntry, Parameter,
    Parameters,
};
use bk_dev::{Body, OpHead};
use bk_form::{TyView, VarTable};
use bk_limits::{MOST_CELLS, MOST_INSTRUCTIONS};
use std::alloc::Global;

/// The most cells, as wide as they are counted here.
const CELLS: u64 = MOST_CELLS as u64;

/// The image of an implementation: what the definition of the translation says of it. It passes the loader's checks and has a
/// spelling. The length of the code is looked at before the number of cells; an image whose names or counts do not fit their
/// fields counts as one with too many, and so does one that has a set of more than MAXINT + 1 elements.
pub fn translate(alloc: Global, unit: &B0Unit) -> Result<Image, GenFault>
    ensures ok { IfOk result (λ image. image ≡ unit_image unit.now) }
    ensures checked { IfOk result IsLoadable }
    ensures spelled { IfOk result HasSpelling }
    ensures too_long { result ≡ Err CodeTooLong → MOST_INSTRUCTIONS < length (unit_code unit.now) }
    ensures too_many { result ≡ Err TooManyCells → (length (unit_code unit.now) ≤ MOST_INSTRUCTIONS) × PassesCells unit.now }
    ensures within { IfOk result (λ image. (length image.code ≤ MOST_INSTRUCTIONS) × (image.cells ≤ MOST_CELLS)) }
{
    unit.facts();
    if code_size(unit) > MOST_INSTRUCTIONS {
        return Err(GenFault::CodeTooLong);
    }
    if cell_count(unit.slots()) > CELLS {
        return Err(GenFault::TooManyCells);
    }
    if !fits_fields(unit) {
        return Err(GenFault::TooManyCells);
    }
    let image = image_of(alloc, unit)?;
    Ok(image)
}

// How many instructions a unit's code has, or 2^64 - 1 if they are more.
fn code_size(unit: &B0Unit) -> u64
    ensures { result ≡ min (block_size (unit_places unit.now) unit.now.init
        + blocks_size (unit_places unit.now) unit.now.bodies) (2 ^ 64 - 1) }
{
    added_sizes(unit, block_size(unit, unit.init()), unit.bodies())
}

// A number of instructions and those of the operations, or 2^64 - 1 if they are more.
fn added_sizes(unit: &B0Unit, size: u64, bodies: &[Body]) -> u64
    ensures { result ≡ min (size + blocks_size (unit_places unit.now) bodies.now) (2 ^ 64 - 1) }
{
    let mut total = size;
    for body in bodies {
        total = total.saturating_add(block_size(unit, &body.sub));
    }
    total
}

// How many cells there are, or 2^64 - 1 if they are more.
fn cell_count(slots: &[Slot]) -> u64
    ensures { result ≡ min (slots_cells slots.now) (2 ^ 64 - 1) }
{
    let mut count = 0u64;
    for slot in slots {
        count = count.saturating_add(at_most_64_bits(slot.cells));
    }
    count
}

// How many cells a unit has whose image is made.
fn few_cells(unit: &B0Unit) -> u32
    requires { IsReady unit.now }
    ensures { result ≡ slots_cells unit.now.slots }
{
    cell_count(unit.slots()) as u32
}

// The greatest number of the code.
fn max_of(unit: &B0Unit) -> i64
    ensures { result ≡ unit.now.arrays.max }
{
    let arrays = unit.arrays();
    arrays.max()
}

// A number, or 2^64 - 1 if that is less.
fn at_most_64_bits(number: u128) -> u64
    ensures { result ≡ min number (2 ^ 64 - 1) }
{
    if number > u128::from(u64::MAX) {
        return u64::MAX;
    }
    number as u64
}

// The image of a unit.
#[tactic(auto, using(crate::proofs::Lengths::block_long))]
fn image_of(alloc: Global, unit: &B0Unit) -> Result<Image, Memory>
    requires range { IsRange unit.now.arrays.max }
    requires ready { IsReady unit.now }
    requires init { HasStatementCode (unit_places unit.now) unit.now.init }
    requires bodies { All (λ b. HasStatementCode (unit_places unit.now) b.sub) unit.now.bodies }
    requires paired { length unit.now.heads ≡ length unit.now.bodies }
    requires short { block_size (unit_places unit.now) unit.now.init
        + blocks_size (unit_places unit.now) unit.now.bodies ≤ MOST_INSTRUCTIONS }
    ensures { IfOk result (λ image. image ≡ unit_image unit.now) }
{
    let mut code = Vec::new(alloc);
    add_block(unit, unit.init(), &mut code)?;
    let ops = add_operations(alloc, unit, unit.heads(), unit.bodies(), &mut code)?;
    let sets = element_names(alloc, unit.sets())?;
    Ok(Image {
        max: max_of(unit),
        cells: few_cells(unit),
        sets: ElemNames::from_vec(sets),
        ops: OpEntries::from_vec(ops),
        code: Code::from_vec(code),
    })
}

// Adds the code of the operations, and gives their entries.
#[tactic(auto, using(crate::proofs::Lengths::block_long))]
fn add_operations(
    alloc: Global,
    unit: &B0Unit,
    heads: &[OpHead],
    bodies: &[Body],
    code: &mut Vec<Inst>,
) -> Result<Vec<OpEntry>, Memory>
    requires ready { IsReady unit.now }
    requires short { length code.old.items + blocks_size (unit_places unit.now) bodies.now ≤ MOST_INSTRUCTIONS }
    requires has { All (λ b. HasStatementCode (unit_places unit.now) b.sub) bodies.now }
    requires paired { length heads.now ≡ length bodies.now }
    ensures code { OnOk result
        (code.new.items ≡ code.old.items ++ placed_bodies (unit_places unit.now) bodies.now) }
    ensures entries { IfOk result (λ ops. ops.items
        ≡ placed_entries (unit_places unit.now) (length code.old.items) heads.now bodies.now) }
{
    let mut ops = Vec::new(alloc);
    for (number, body) in bodies.iter().enumerate() {
        let head = &heads[number];
        ops.push(entry_of(alloc, unit, code.len() as u32, head, body)?)?;
        add_block(unit, &body.sub, code)?;
    }
    Ok(ops)
}

// The entry of an operation whose code starts at a place.
fn entry_of(
    alloc: Global,
    unit: &B0Unit,
    start: u32,
    head: &OpHead,
    body: &Body,
) -> Result<OpEntry, Memory>
    requires { IsReady unit.now }
    ensures { IfOk result (λ entry. entry ≡ record {
      name = head.now.name;
      start = start;
      inputs = map (placed_parameter (unit_places unit.now)) head.now.inputs;
      outputs = map (placed_parameter (unit_places unit.now)) body.now.outputs;
    }) }
{
    let name = Vec::from_slice(alloc, head.name.as_bytes())?;
    Ok(OpEntry {
        name: NameText::from_vec(name),
        start,
        inputs: parameters(alloc, unit, &head.inputs)?,
        outputs: parameters(alloc, unit, &body.outputs)?,
    })
}

// Inputs or outputs with their kinds and cells.
fn parameters(alloc: Global, unit: &B0Unit, variables: &[u32]) -> Result<Parameters, Memory>
    requires { IsReady unit.now }
    ensures { IfOk result (λ list. list ≡ map (placed_parameter (unit_places unit.now)) variables.now) }
{
    let mut list = Vec::new(alloc);
    for variable in variables {
        list.push(Parameter {
            kind: kind_of(unit.table(), *variable),
            slot: slot_of(unit, *variable),
        })?;
    }
    Ok(Parameters::from_vec(list))
}

// What the cell of a variable holds.
fn kind_of(table: &VarTable, variable: u32) -> CellKind
    ensures { result ≡ kind_of_type (declared_type table.now variable) }
{
    match table.ty(variable) {
        Some(ty) => match ty.view() {
            TyView::Bool => CellKind::Bool,
            TyView::Enum(set) => CellKind::Set(set),
            _ => CellKind::Integer,
        },
        None => CellKind::Bool,
    }
}
