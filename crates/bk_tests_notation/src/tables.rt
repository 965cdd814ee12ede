//! Tables of variables.

ghost use Rattle.std.specs.Prelude.{◌≡◌, ◌<◌};
ghost use Rattle.bk_form.specs.Table.{is_among_sets};

use crate::error::Unread;
use crate::types::type_of;
use bk_form::{Ty, TyView, VarTable};
use bk_io::Text;
use bk_tests_fixtures::text;
use std::alloc::Global;

// Tables have so many variables at most.
const MOST: usize = 1000;

/// The table of the set C, whose elements are c0 and c1, and of variables of these types, in the order of their numbers.
pub fn table_of(alloc: Global, types: &[&str]) -> Result<VarTable, Unread> {
    let mut table = VarTable::new(alloc);
    let elements = vec![in alloc; text(alloc, b"c0")?, text(alloc, b"c1")?]?;
    table.add_set(text(alloc, b"C")?, elements, 2)?;
    for ty in types {
        add(&mut table, text(alloc, b"x")?, type_of(alloc, ty)?)?;
    }
    Ok(table)
}

// Adds a variable, where the table lists the sets of its type.
fn add(table: &mut VarTable, name: Text, ty: Ty) -> Result<(), Unread> {
    if table.variables() >= MOST || !is_among(&ty, table.sets()) {
        return Err(Unread::Text);
    }
    table.add_variable(name, ty)?;
    Ok(())
}

// Whether each enumerated set of the type is one of the first.
fn is_among(ty: &Ty, count: usize) -> bool
    ensures { result ≡ is_among_sets count ty.now }
{
    match ty.view() {
        TyView::Int | TyView::Bool => true,
        TyView::Enum(set) => (set as usize) < count,
        TyView::Pair(left, right) => is_among(left, count) && is_among(right, count),
        TyView::Set(elements) => is_among(elements, count),
    }
}
