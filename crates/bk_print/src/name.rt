// The text of the names that rules bring.

ghost use Rattle.std.specs.Prelude.{◌≡◌, ◌++◌, ◌∷◌, map, OnOk};
ghost use Rattle.bk_form.specs.Table.{variable_type};
ghost use Rattle.bk_show.specs.Items.{blank, text_of};
ghost use Rattle.bk_show.specs.Shown.{name_of_variable};
ghost use Rattle.bk_print.specs.Text.{behind_each, comma, divided, name_items, some_type_items};

use bk_form::VarTable;
use bk_io::Memory;
use bk_show::show_type;
use std::alloc::Global;

/// Writes variables after a blank, each with its type, with commas between.
#[tactic(auto, using(crate::proofs::Pieces::rules))]
pub(crate) fn write_names(
    alloc: Global,
    out: &mut Vec<u8>,
    types: &VarTable,
    names: &[u32],
) -> Result<(), Memory>
    ensures { OnOk result (out.new.items ≡ out.old.items ++ text_of (blank ∷ divided comma (map (name_items types.now) names.now))) }
{
    out.extend_from_slice(b" ")?;
    match names {
        [] => Ok(()),
        [first, rest @ ..] => {
            write_name(alloc, out, types, *first)?;
            write_more(alloc, out, types, rest)
        }
    }
}

// Writes variables, each after a comma.
fn write_more(
    alloc: Global,
    out: &mut Vec<u8>,
    types: &VarTable,
    names: &[u32],
) -> Result<(), Memory>
    ensures { OnOk result (out.new.items ≡
        out.old.items ++ text_of (behind_each comma (map (name_items types.now) names.now))) }
{
    for name in names {
        out.extend_from_slice(b", ")?;
        write_name(alloc, out, types, *name)?;
    }
    Ok(())
}

// Writes a variable with its type.
#[tactic(auto, using(crate::proofs::Pieces::rules))]
fn write_name(alloc: Global, out: &mut Vec<u8>, types: &VarTable, name: u32) -> Result<(), Memory>
    ensures { OnOk result (out.new.items ≡ out.old.items ++ text_of (name_items types.now name)) }
{
    out.extend_from_slice(name_of(types, name))?;
    out.extend_from_slice(b" : ")?;
    write_type(alloc, out, types, name)
}

// The name of a variable; nothing where the table has none.
fn name_of(types: &VarTable, variable: u32) -> &[u8]
    ensures { result.now ≡ name_of_variable types.now variable }
{
    match types.text(variable) {
        Some(text) => text.as_bytes(),
        None => b"",
    }
}

// Writes the type of a variable, where the table has it.
fn write_type(
    alloc: Global,
    out: &mut Vec<u8>,
    types: &VarTable,
    variable: u32,
) -> Result<(), Memory>
    ensures { OnOk result (out.new.items ≡
        out.old.items ++ text_of (some_type_items types.now (variable_type types.now variable))) }
{
    let Some(ty) = types.ty(variable) else {
        return Ok(());
    };
    let text = show_type(alloc, ty, types)?;
    out.extend_from_slice(&text)?;
    Ok(())
}
