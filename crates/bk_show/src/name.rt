// The names of variables, sets and elements, and the words of sets that the notation names.

ghost use Rattle.std.specs.Prelude.{◌≡◌};
ghost use Rattle.bk_show.specs.Items.{text_of};
ghost use Rattle.bk_show.specs.Shown.{name_of_variable, name_of_set, name_of_element, domain_items};

use bk_form::{Domain, VarTable};

// The name of a variable, or nothing where the table has none.
pub(crate) fn name_of_variable(table: &VarTable, variable: u32) -> &[u8]
    ensures { result.now ≡ name_of_variable table.now variable }
{
    match table.text(variable) {
        Some(name) => name.as_bytes(),
        None => b"",
    }
}

// The name of a set, or nothing where the table has none.
pub(crate) fn name_of_set(table: &VarTable, set: u32) -> &[u8]
    ensures { result.now ≡ name_of_set table.now set }
{
    match table.set_name(set) {
        Some(name) => name.as_bytes(),
        None => b"",
    }
}

// The name of an element of a set, or nothing where the table has none.
pub(crate) fn name_of_element(table: &VarTable, set: u32, index: u32) -> &[u8]
    ensures { result.now ≡ name_of_element table.now set index }
{
    let Some(names) = table.elements(set) else {
        return b"";
    };
    match names.get(index as usize) {
        Some(name) => name.as_bytes(),
        None => b"",
    }
}

// The name of a set that has one in the notation or in the table.
pub(crate) fn name_of_domain(table: &VarTable, domain: Domain) -> &[u8]
    ensures { result.now ≡ text_of (domain_items table.now domain) }
{
    match domain {
        Domain::Integer => b"INTEGER",
        Domain::Natural => b"NATURAL",
        Domain::Natural1 => b"NATURAL1",
        Domain::Bool => b"BOOL",
        Domain::Enum(set) => name_of_set(table, set),
    }
}
