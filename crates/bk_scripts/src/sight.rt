// What a script is for, and what its terms may name.

ghost use Rattle.std.specs.Prelude.{◌≡◌, ◌<◌, ◌↔◌, ◌++◌, IfOk, IfSome, IsTrue, OnOk, length, map, take, drop};
ghost use Rattle.std.specs.List.{filter_map, flat_map, position};
ghost use Rattle.std.specs.Str.{bytes_eq};
ghost use Rattle.bk_dev.specs.Development.{extent_at, body_of, inputs_of};
ghost use Rattle.bk_dev.specs.declared.kind.Home.TheVariants.{Constant};
ghost use Rattle.bk_scripts.specs.Sight as meant;

use bk_dev::{Development, EnumSet, Home, Level};
use bk_form::VarTable;
use bk_io::{Memory, Text};
use bk_raw::NamePart;
use itoa::Buffer;
use std::alloc::Global;

// The level of the component that a name begins with.
pub(crate) fn level_of(
    alloc: Global,
    dev: &Development,
    name: &[NamePart],
) -> Result<Option<usize>, Memory>
    ensures value { IfOk result (λ level. level ≡ meant.level_of dev.now name.now) }
    ensures inside { IfOk result (λ level. IfSome level (λ k. k < length dev.now.levels)) }
{
    let component = part_at(alloc, name, 0)?;
    Ok(level_named(dev, &component))
}

fn level_named(dev: &Development, text: &[u8]) -> Option<usize>
    ensures value { result ≡ position (λ l. bytes_eq l.name text.now) dev.now.levels }
    ensures inside { IfSome result (λ level. level < length dev.now.levels) }
{
    dev.levels
        .iter()
        .position(|level| level.name.as_bytes() == text)
}

// The operation that stands in the name after it.
pub(crate) fn operation_of(
    alloc: Global,
    dev: &Development,
    name: &[NamePart],
) -> Result<Option<usize>, Memory>
    ensures { IfOk result (λ operation. operation ≡ meant.operation_of dev.now name.now) }
{
    let operation = part_at(alloc, name, 1)?;
    Ok(operation_named(dev, &operation))
}

fn operation_named(dev: &Development, text: &[u8]) -> Option<usize>
    ensures { result ≡ position (λ h. bytes_eq h.name text.now) dev.now.heads }
{
    dev.heads
        .iter()
        .position(|head| head.name.as_bytes() == text)
}

// The letters of a part of a name, from 0.
fn part_at(alloc: Global, name: &[NamePart], number: usize) -> Result<Vec<u8>, Memory>
    ensures { IfOk result (λ text. text.items ≡ meant.part_at name.now number) }
{
    match name.get(number) {
        Some(part) => part_text(alloc, part),
        None => Ok(Vec::new(alloc)),
    }
}

fn part_text(alloc: Global, part: &NamePart) -> Result<Vec<u8>, Memory>
    ensures { IfOk result (λ text. text.items ≡ meant.part_text part.now) }
{
    match part {
        NamePart::Letters(text) => Ok(Vec::from_slice(alloc, text.as_bytes())?),
        NamePart::Numeral(number) => {
            let mut buffer = Buffer::new();
            Ok(Vec::from_slice(alloc, buffer.format(*number).as_bytes())?)
        }
    }
}

// The number of a name that means nothing: no variable has it.
pub(crate) const NO_VARIABLE: u32 = u32::MAX;

// Constants and variables of the levels down to this one. Sets and elements of the levels below are hidden.
pub(crate) fn outer_entries(
    alloc: Global,
    dev: &Development,
    table: &VarTable,
    level: Option<usize>,
) -> Result<Vec<(Text, u32)>, Memory>
    requires { IfSome level (λ k. k < length dev.now.levels) }
    ensures { IfOk result (λ entries. entries.items ≡ meant.outer_scope table.now dev.now level) }
{
    let Some(level) = level else {
        return Ok(Vec::new(alloc));
    };
    let mut scope = hidden_below(alloc, dev, level)?;
    let mut more = entries_to(alloc, dev, table, level)?;
    scope.append(&mut more)?;
    Ok(scope)
}

// Sets and elements of the levels below, which mean nothing.
fn hidden_below(alloc: Global, dev: &Development, level: usize) -> Result<Vec<(Text, u32)>, Memory>
    ensures { IfOk result (λ entries. entries.items ≡ meant.hiding (meant.lower_sets dev.now level)) }
{
    let (sets, _) = extent_at(dev, level);
    hidden_sets(alloc, behind(&dev.sets, sets))
}

// Constants and variables of the levels down to this one.
fn entries_to(
    alloc: Global,
    dev: &Development,
    table: &VarTable,
    level: usize,
) -> Result<Vec<(Text, u32)>, Memory>
    requires { level < length dev.now.levels }
    ensures { IfOk result (λ entries. entries.items ≡
        filter_map (meant.entry table.now) (meant.constants_to dev.now level ++ meant.variables_to dev.now level)) }
{
    let mut variables = constants_to(alloc, dev, level)?;
    add_variables(&mut variables, &dev.levels[..level + 1])?;
    entries_of(alloc, table, &variables)
}

// The constants of the levels down to this one.
fn constants_to(alloc: Global, dev: &Development, level: usize) -> Result<Vec<u32>, Memory>
    ensures { IfOk result (λ constants. constants.items ≡ meant.constants_to dev.now level) }
{
    let (_, variables) = extent_at(dev, level);
    constants(alloc, first(&dev.homes, variables))
}

// How many sets and variables there are with this level and those above it.
fn extent_at(dev: &Development, level: usize) -> (usize, usize)
    ensures { result ≡ extent_at dev.now level }
{
    match dev.extents.get(level) {
        Some(extent) => *extent,
        None => (0, 0),
    }
}

// So many homes, if there are as many.
fn first(homes: &[Home], count: usize) -> &[Home]
    ensures { result.now ≡ take count homes.now }
{
    if count >= homes.len() {
        return homes;
    }
    &homes[..count]
}

// The sets after so many.
fn behind(sets: &[EnumSet], count: usize) -> &[EnumSet]
    ensures { result.now ≡ drop count sets.now }
{
    if count >= sets.len() {
        return &[];
    }
    &sets[count..]
}

// The names of sets and of their elements, which mean nothing.
fn hidden_sets(alloc: Global, sets: &[EnumSet]) -> Result<Vec<(Text, u32)>, Memory>
    ensures { IfOk result (λ entries. entries.items ≡ meant.hiding (meant.set_texts sets.now)) }
{
    let mut entries = Vec::new(alloc);
    for set in sets {
        let name = set.name.copy(alloc)?;
        entries.push((name, NO_VARIABLE))?;
        hide(alloc, &mut entries, &set.elements)?;
    }
    Ok(entries)
}

// Adds texts that mean nothing.
fn hide(alloc: Global, entries: &mut Vec<(Text, u32)>, texts: &[Text]) -> Result<(), Memory>
    ensures { OnOk result (entries.new.items ≡ entries.old.items ++ meant.hiding texts.now) }
{
    for text in texts {
        entries.push((text.copy(alloc)?, NO_VARIABLE))?;
    }
    Ok(())
}

// Outputs and inputs of an operation at the levels down to this one.
pub(crate) fn parameter_entries(
    alloc: Global,
    dev: &Development,
    table: &VarTable,
    level: Option<usize>,
    operation: Option<usize>,
) -> Result<Vec<(Text, u32)>, Memory>
    requires { IfSome level (λ k. k < length dev.now.levels) }
    ensures { IfOk result (λ entries. entries.items ≡ meant.parameter_scope table.now dev.now level operation) }
{
    let Some(level) = level else {
        return Ok(Vec::new(alloc));
    };
    let parameters = parameters_to(alloc, dev, level, operation)?;
    entries_of(alloc, table, &parameters)
}

// The numbers of the constants.
fn constants(alloc: Global, homes: &[Home]) -> Result<Vec<u32>, Memory>
    ensures { IfOk result (λ constants. constants.items ≡ meant.constants_from 0 homes.now) }
{
    let mut constants = Vec::new(alloc);
    for (index, home) in homes.iter().enumerate() {
        if is_constant(home) {
            let number = number_of(index)?;
            constants.push(number)?;
        }
    }
    Ok(constants)
}

// The number of a place, if 32 bits reach it.
fn number_of(index: usize) -> Result<u32, Memory>
    ensures { IfOk result (λ number. number ≡ index) }
{
    u32::try_from(index).map_err(|_| Memory)
}

fn is_constant(home: &Home) -> bool
    ensures { IsTrue result ↔ (home.now ≡ Constant) }
{
    matches!(home, Home::Constant)
}

// Adds the variables of levels.
fn add_variables(variables: &mut Vec<u32>, levels: &[Level]) -> Result<(), Memory>
    ensures { OnOk result (variables.new.items ≡ variables.old.items ++ flat_map (λ l. l.vars) levels.now) }
{
    for level in levels {
        variables.extend_from_slice(&level.vars)?;
    }
    Ok(())
}

fn parameters_to(
    alloc: Global,
    dev: &Development,
    level: usize,
    operation: Option<usize>,
) -> Result<Vec<u32>, Memory>
    requires { level < length dev.now.levels }
    ensures { IfOk result (λ parameters. parameters.items ≡ meant.parameters_to dev.now level operation) }
{
    match operation {
        Some(operation) => operation_parameters(alloc, dev, &dev.levels[..level + 1], operation),
        None => Ok(Vec::new(alloc)),
    }
}

// An operation's outputs at these levels, and its inputs.
fn operation_parameters(
    alloc: Global,
    dev: &Development,
    levels: &[Level],
    operation: usize,
) -> Result<Vec<u32>, Memory>
    ensures { IfOk result (λ parameters. parameters.items ≡
        flat_map (λ l. (body_of l operation).outputs) levels.now ++ inputs_of dev.now operation) }
{
    let mut parameters = Vec::new(alloc);
    for level in levels {
        parameters.extend_from_slice(outputs_at(level, operation))?;
    }
    if let Some(head) = dev.heads.get(operation) {
        parameters.extend_from_slice(&head.inputs)?;
    }
    Ok(parameters)
}

fn outputs_at(level: &Level, operation: usize) -> &[u32]
    ensures { result.now ≡ (body_of level.now operation).outputs }
{
    match level.bodies.get(operation) {
        Some(body) => &body.outputs,
        None => &[],
    }
}

// The variables by their texts.
fn entries_of(
    alloc: Global,
    table: &VarTable,
    variables: &[u32],
) -> Result<Vec<(Text, u32)>, Memory>
    ensures { IfOk result (λ entries. entries.items ≡ filter_map (meant.entry table.now) variables.now) }
{
    let mut entries = Vec::new(alloc);
    for variable in variables {
        if let Some(text) = table.text(*variable) {
            entries.push((text.copy(alloc)?, *variable))?;
        }
    }
    Ok(entries)
}
