// The names that the rules of a script bring, and what its terms are read in.

ghost use Rattle.std.specs.Prelude.{◌≡◌, ◌++◌, ◌<◌, ◌≤◌, ◌^◌, ◌∷◌, [], IfOk, OnOk, map, length};
ghost use Rattle.bk_scripts.specs.Brought as meant;
ghost use Rattle.bk_scripts.specs.Widening.{IsWidened};

use crate::around::type_in;
use crate::found::has_entry;
use crate::sight::NO_VARIABLE;
use bk_form::VarTable;
use bk_io::{Memory, Text};
use bk_p_proof::typed_names;
use bk_raw::{RawScript, RawTyped, Scope};
use indexmap::IndexSet;
use std::alloc::Global;

// The names that a script brings, each once.
pub(crate) fn brought(alloc: Global, script: &RawScript) -> Result<Vec<&RawTyped>, Memory>
    ensures { IfOk result (λ names. map (λ x. x.now) names.items ≡ meant.brought script.now) }
{
    let names = typed_names(alloc, script)?;
    first_of_each(alloc, &names)
}

// The first name with each text, in order.
fn first_of_each<'a>(alloc: Global, names: &[&'a RawTyped]) -> Result<Vec<&'a RawTyped>, Memory>
    ensures { IfOk result (λ first. map (λ x. x.now) first.items ≡
        meant.first_of_each [] (map (λ x. x.now) names.now)) }
{
    let mut texts = IndexSet::new(alloc);
    let mut first = Vec::new(alloc);
    for name in names {
        let copy: Vec<u8> = Vec::from_slice(alloc, name.name.text.as_bytes())?;
        if texts.insert(copy)? {
            first.push(*name)?;
        }
    }
    Ok(first)
}

// The names that are new over these outputs and inputs.
pub(crate) fn new_over<'a>(
    alloc: Global,
    own: &[(Text, u32)],
    names: &[&'a RawTyped],
) -> Result<Vec<&'a RawTyped>, Memory>
    ensures { IfOk result (λ new. map (λ x. x.now) new.items ≡
        meant.new_over own.now (map (λ x. x.now) names.now)) }
{
    let mut new = Vec::new(alloc);
    for name in names {
        if !has_entry(own, name.name.text.as_bytes()) {
            new.push(*name)?;
        }
    }
    Ok(new)
}

// Adds entries to a scope.
pub(crate) fn add_entries(
    alloc: Global,
    scope: &mut Scope,
    entries: &[(Text, u32)],
) -> Result<(), Memory>
    ensures { OnOk result (scope.new ≡ record { max = scope.old.max; names = scope.old.names ++ entries.now }) }
{
    for entry in entries {
        scope.add(entry.0.copy(alloc)?, entry.1)?;
    }
    Ok(())
}

// Adds names to a scope that hide and mean nothing.
pub(crate) fn add_hidden(
    alloc: Global,
    scope: &mut Scope,
    names: &[&RawTyped],
) -> Result<(), Memory>
    ensures { OnOk result (scope.new ≡
        record { max = scope.old.max; names = scope.old.names ++ meant.hidden (map (λ x. x.now) names.now) }) }
{
    for name in names {
        scope.add(name.name.text.copy(alloc)?, NO_VARIABLE)?;
    }
    Ok(())
}

// Adds names to a scope, and a variable for each that has a type to a table.
pub(crate) fn widen(
    alloc: Global,
    types: &Scope,
    over: &VarTable,
    names: &[&RawTyped],
    table: &mut VarTable,
    scope: &mut Scope,
) -> Result<(), Memory>
    requires { table.old ≡ over.now }
    ensures { OnOk result (IsWidened (meant.type_in over.now types.now) (map (λ x. x.now) names.now)
        table.old table.new scope.old scope.new) }
{
    for name in names {
        add_name(alloc, types, over, name, table, scope)?;
    }
    if table.variables() >= NO_VARIABLE as usize {
        return Err(Memory);
    }
    Ok(())
}

// The same of one name.
fn add_name(
    alloc: Global,
    types: &Scope,
    over: &VarTable,
    name: &RawTyped,
    table: &mut VarTable,
    scope: &mut Scope,
) -> Result<(), Memory>
    requires { table.old.sets ≡ over.now.sets }
    ensures table { OnOk result (table.new ≡ meant.widened_by (meant.type_in over.now types.now) table.old (name.now ∷ [])) }
    ensures scope { OnOk result (scope.new ≡ record {
      max = scope.old.max;
      names = scope.old.names ++
          (name.now.name.text, meant.number_of (length table.old.variables) (meant.type_in over.now types.now name.now)) ∷ [];
    }) }
{
    let text = name.name.text.copy(alloc)?;
    let Some(ty) = type_in(alloc, types, over, &name.ty)? else {
        scope.add(text, NO_VARIABLE)?;
        return Ok(());
    };
    if table.variables() >= NO_VARIABLE as usize {
        return Err(Memory);
    }
    let number = table.add_variable(name.name.text.copy(alloc)?, ty)?;
    scope.add(text, number)?;
    Ok(())
}
