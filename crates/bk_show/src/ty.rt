// The text of types.

ghost use Rattle.std.specs.Prelude.{◌≡◌, ◌++◌, IfOk, OnOk};
ghost use Rattle.bk_show.specs.Items.{text_of};
ghost use Rattle.bk_show.specs.Shown.{type_items};

use crate::name::name_of_set;
use bk_form::{Ty, TyView, VarTable};
use bk_io::Memory;
use std::alloc::Global;

/// The text of a type, with the names of the table: `INTEGER`, `BOOL`, the name of a set, `(INTEGER * BOOL)`, `POW(INTEGER)`.
pub fn show_type(alloc: Global, ty: &Ty, table: &VarTable) -> Result<Vec<u8>, Memory>
    ensures { IfOk result (λ text. text.items ≡ text_of (type_items table.now ty.now)) }
{
    let mut out = Vec::new(alloc);
    write_type(&mut out, table, ty)?;
    Ok(out)
}

// Writes a type after what is written.
#[tactic(auto, using(crate::proofs::Written::types))]
pub(crate) fn write_type(out: &mut Vec<u8>, table: &VarTable, ty: &Ty) -> Result<(), Memory>
    ensures { OnOk result (out.new.items ≡ out.old.items ++ text_of (type_items table.now ty.now)) }
{
    match ty.view() {
        TyView::Int => out.extend_from_slice(b"INTEGER")?,
        TyView::Bool => out.extend_from_slice(b"BOOL")?,
        TyView::Enum(set) => out.extend_from_slice(name_of_set(table, set))?,
        TyView::Pair(left, right) => {
            out.extend_from_slice(b"(")?;
            write_type(out, table, left)?;
            out.extend_from_slice(b" * ")?;
            write_type(out, table, right)?;
            out.extend_from_slice(b")")?;
        }
        TyView::Set(elements) => {
            out.extend_from_slice(b"POW(")?;
            write_type(out, table, elements)?;
            out.extend_from_slice(b")")?;
        }
    }
    Ok(())
}
