//! What the obligations of a component ask.

ghost use Rattle.std.specs.Prelude.{◌≡◌, ◌++◌, ◌<◌, ◌∷◌, [], length, map, cond, IfOk, OnOk};
ghost use Rattle.bk_dev.specs.Development.{is_implementation, level_at};
ghost use Rattle.bk_po.specs.Obligations.{numbers_below, clauses_of};
ghost use Rattle.bk_po.specs.declared.clause.Clause.TheVariants.{ValuesMeet, Operation, OperationDefined};

use crate::flattening::FlatDevelopment;
use bk_dev::Kind;
use bk_io::Memory;
use std::alloc::Global;

/// What an obligation of a component asks.
#[derive(Clone, Copy)]
pub enum Clause {
    /// The properties are defined.
    PropertiesDefined,
    /// The constants' values have the properties.
    ValuesMeet,
    /// The invariant is defined.
    InvariantDefined,
    /// The assertions are defined, each where those before it are true.
    AssertionsDefined,
    /// The assertions are true.
    AssertionsHold,
    /// The initialisation meets the invariant, or answers the one above.
    Initialisation,
    /// What the initialisation meets is defined, or fits the machine.
    InitialisationDefined,
    /// The operation with this number keeps the invariant, or answers the one above.
    Operation(usize),
    /// What the operation with this number meets is defined, or fits the machine.
    OperationDefined(usize),
}

/// What is asked of the component at a level, in order: by clauses, and the operations in the machine's order.
pub(crate) fn clauses(
    alloc: Global,
    dev: &FlatDevelopment<'_>,
    level: usize,
) -> Result<Vec<Clause>, Memory>
    requires { level < length dev.now.levels }
    ensures { IfOk result (λ list. list.items ≡ clauses_of dev.now level) }
{
    let mut list = Vec::new(alloc);
    list.push(Clause::PropertiesDefined)?;
    add_values(dev, level, &mut list)?;
    list.push(Clause::InvariantDefined)?;
    list.push(Clause::AssertionsDefined)?;
    list.push(Clause::AssertionsHold)?;
    list.push(Clause::Initialisation)?;
    list.push(Clause::InitialisationDefined)?;
    add_operations(dev, &mut list)?;
    add_operations_defined(dev, &mut list)?;
    Ok(list)
}

// Adds that the constants' values have the properties, at an implementation.
fn add_values(dev: &FlatDevelopment<'_>, level: usize, list: &mut Vec<Clause>) -> Result<(), Memory>
    requires { level < length dev.now.levels }
    ensures { OnOk result (list.new.items ≡ list.old.items
        ++ cond (is_implementation (level_at dev.now level)) (ValuesMeet ∷ []) []) }
{
    if dev.levels[level].kind == Kind::Implementation {
        list.push(Clause::ValuesMeet)?;
    }
    Ok(())
}

fn add_operations(dev: &FlatDevelopment<'_>, list: &mut Vec<Clause>) -> Result<(), Memory>
    ensures { OnOk result (list.new.items ≡ list.old.items ++ map Operation (numbers_below (length dev.now.heads))) }
{
    for operation in 0..dev.operations() {
        list.push(Clause::Operation(operation))?;
    }
    Ok(())
}

fn add_operations_defined(dev: &FlatDevelopment<'_>, list: &mut Vec<Clause>) -> Result<(), Memory>
    ensures { OnOk result (list.new.items
        ≡ list.old.items ++ map OperationDefined (numbers_below (length dev.now.heads))) }
{
    for operation in 0..dev.operations() {
        list.push(Clause::OperationDefined(operation))?;
    }
    Ok(())
}
