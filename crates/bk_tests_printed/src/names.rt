// The names that the tests print with: the set COLOR of red and green, and a variable for each letter.

ghost use Rattle.std.specs.Prelude.{◌≡◌, ◌<◌};
ghost use Rattle.bk_form.specs.Table.{is_among_sets};

use bk_form::{Ty, TyView, VarTable};
use bk_io::{Memory, Text};
use bk_raw::Scope;
use bk_tests_fixtures::text;
use bk_tests_notation::{Unread, type_of};
use std::alloc::Global;

// The letters of the variables, in the order of their numbers.
pub(crate) const LETTERS: &str = "nkvstrfhp";

// Their names and types.
const VARIABLES: [(&str, &str); 9] = [
    ("n$0", "i"),
    ("k", "i"),
    ("größe", "i"),
    ("s", "Pi"),
    ("t", "Pc"),
    ("r$1", "PXii"),
    ("f", "PXii"),
    ("h", "PXic"),
    ("p", "b"),
];

// Tables have so many variables at most.
const MOST: usize = 1000;

pub(crate) fn table(alloc: Global) -> Result<VarTable, Unread> {
    let mut table = VarTable::new(alloc);
    let elements = vec![in alloc; text(alloc, b"red")?, text(alloc, b"green")?]?;
    table.add_set(text(alloc, b"COLOR")?, elements, 2)?;
    add_all(alloc, &mut table, &VARIABLES)?;
    Ok(table)
}

fn add_all(alloc: Global, table: &mut VarTable, rows: &[(&str, &str)]) -> Result<(), Unread> {
    for (name, ty) in rows {
        let ty = type_of(alloc, ty)?;
        add(table, text(alloc, name.as_bytes())?, ty)?;
    }
    Ok(())
}

// Adds a variable, where the table lists the sets of its type.
fn add(table: &mut VarTable, name: Text, ty: Ty) -> Result<(), Unread> {
    if table.variables() >= MOST || !is_among(&ty, table.sets()) {
        return Err(Unread::Text);
    }
    table.add_variable(name, ty)?;
    Ok(())
}

// Whether each enumerated set of the type is one of the first.
fn is_among(ty: &Ty, count: usize) -> bool
    ensures { result ≡ is_among_sets count ty.now }
{
    match ty.view() {
        TyView::Int | TyView::Bool => true,
        TyView::Enum(set) => (set as usize) < count,
        TyView::Pair(left, right) => is_among(left, count) && is_among(right, count),
        TyView::Set(elements) => is_among(elements, count),
    }
}

// Each variable by its name.
pub(crate) fn scope(alloc: Global) -> Result<Scope, Memory> {
    let mut scope = Scope::new(alloc, 2147483647);
    for (number, (name, _)) in VARIABLES.iter().enumerate() {
        scope.add(text(alloc, name.as_bytes())?, number as u32)?;
    }
    Ok(scope)
}
