// What is found of a name among entries of a scope, and among the sets of a table and their elements.

ghost use Rattle.std.specs.Prelude.{◌≡◌, ◌<◌, None, Some, IfSome, length, slice_get};
ghost use Rattle.std.specs.List.{list_any};
ghost use Rattle.std.specs.Str.{bytes_eq};
ghost use Rattle.bk_form.specs.Table.{SetEntry};
ghost use Rattle.bk_scripts.specs.Brought.{is_in_scope};
ghost use Rattle.bk_scripts.specs.Finding.{in_set, set_among};

use bk_form::VarTable;
use bk_io::Text;

// Whether one of the entries has the text.
pub(crate) fn has_entry(entries: &[(Text, u32)], text: &[u8]) -> bool
    ensures { result ≡ is_in_scope entries.now text.now }
{
    entries.iter().any(|entry| entry.0.as_bytes() == text)
}

// The set with the text, where no set before it and none of their elements has it.
pub(crate) fn set_named(table: &VarTable, text: &[u8]) -> Option<u32>
    ensures named { result ≡ set_among 0 table.now.sets text.now }
    ensures inside { IfSome result (λ set. set < length table.now.sets) }
{
    for number in 0..table.sets() {
        if let Some(is_set) = in_set(table, number as u32, text) {
            return if is_set { Some(number as u32) } else { None };
        }
    }
    None
}

// Whether the text is that of a set, where it is the set's or one of its elements'.
fn in_set(table: &VarTable, set: u32, text: &[u8]) -> Option<bool>
    ensures { (e : SetEntry) → slice_get table.now.sets set ≡ Some e → result ≡ in_set e text.now }
{
    if is_named(table, set, text) {
        return Some(true);
    }
    if has_element(table, set, text) {
        return Some(false);
    }
    None
}

// Whether the set has this name.
fn is_named(table: &VarTable, set: u32, text: &[u8]) -> bool
    ensures { (e : SetEntry) → slice_get table.now.sets set ≡ Some e → result ≡ bytes_eq e.name text.now }
{
    match table.set_name(set) {
        Some(name) => name.as_bytes() == text,
        None => false,
    }
}

// Whether one of the set's elements has this name.
fn has_element(table: &VarTable, set: u32, text: &[u8]) -> bool
    ensures { (e : SetEntry) → slice_get table.now.sets set ≡ Some e → result ≡ list_any (λ x. bytes_eq x text.now) e.elements }
{
    match table.elements(set) {
        Some(elements) => is_among(elements, text),
        None => false,
    }
}

// Whether the text is one of these.
fn is_among(texts: &[Text], text: &[u8]) -> bool
    ensures { result ≡ list_any (λ x. bytes_eq x text.now) texts.now }
{
    texts.iter().any(|other| other.as_bytes() == text)
}
