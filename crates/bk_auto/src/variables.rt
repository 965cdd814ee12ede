// New variables, with texts that no other one has.

ghost use Rattle.std.specs.Prelude.{◌≡◌, ◌∷◌, [], true, false, ℕ, Some, decimal, length, slice_get, IfOk, OnOk, MatchOption};
ghost use Rattle.std.specs.List.{Contains};
ghost use Rattle.bk_form.specs.Role.{all_listed};
ghost use Rattle.bk_form.specs.Table.{lists_type, variable_text, set_name, set_elements, IsWellFormed};
ghost use Rattle.bk_auto.specs.NewVariables.{texts_of, IsNewText, HasNew};
ghost use Rattle.bk_auto.specs.Found.{numbers_from, GrewBy, IsOutside};

use bk_form::{Ty, VarTable};
use bk_io::{Memory, Text};
use itoa::Buffer;
use std::alloc::Global;

/// Each table is well formed. It does nothing: callers learn this of the mathematical table.
pub(crate) fn is_formed(types: &VarTable)
    ensures { IsWellFormed types.now }
{
    let _count = types.variables();
}

/// Adds a new variable of each type, and answers their numbers.
pub(crate) fn add_variables(
    alloc: Global,
    types: &mut VarTable,
    bound: &[Ty],
) -> Result<Vec<u32>, Memory>
    requires { all_listed types.old bound.now ≡ true }
    ensures new { HasNew types.old types.new }
    ensures grew { OnOk result (GrewBy types.old types.new bound.now) }
    ensures numbers { IfOk result (λ ns. ns.items ≡ numbers_from (length types.old.variables) (length bound.now)) }
{
    let mut names = Vec::new(alloc);
    for ty in bound {
        names.push(add_variable(alloc, types, ty)?)?;
    }
    Ok(names)
}

// Adds a new variable of the type, and answers its number.
fn add_variable(alloc: Global, types: &mut VarTable, ty: &Ty) -> Result<u32, Memory>
    requires { lists_type types.old ty.now ≡ true }
    ensures new { HasNew types.old types.new }
    ensures grew { OnOk result (GrewBy types.old types.new (ty.now ∷ [])) }
    ensures number { IfOk result (λ n. n ≡ length types.old.variables) }
{
    let count = types.variables();
    if count >= u32::MAX as usize {
        return Err(Memory);
    }
    let text = new_text(alloc, types, count)?;
    types.add_variable(text, ty.copy(alloc)?)
}

// The first of `v` and a number, from this number on, that is no text of the table.
fn new_text(alloc: Global, table: &VarTable, first: usize) -> Result<Text, Memory>
    ensures { IfOk result (λ text. IsNewText (texts_of table.now) text) }
{
    for number in first..usize::MAX {
        let text = numbered(alloc, number)?;
        if !is_taken(table, &text) {
            return Ok(text);
        }
    }
    Err(Memory)
}

// The text of `v` and a number.
fn numbered(alloc: Global, number: usize) -> Result<Text, Memory>
    ensures { IfOk result (λ text. text ≡ 118 ∷ decimal number) }
{
    let mut buffer = Buffer::new();
    let mut bytes = Vec::from_slice(alloc, b"v")?;
    bytes.extend_from_slice(buffer.format(number).as_bytes())?;
    Ok(Text::from_bytes(bytes))
}

// Whether it is a text of the table.
fn is_taken(table: &VarTable, text: &Text) -> bool
    ensures { result ≡ false → Contains (texts_of table.now) text.now → ⊥ }
{
    is_variable(table, text) || is_of_set(table, text)
}

// Whether it is the text of a variable.
fn is_variable(table: &VarTable, text: &Text) -> bool
    ensures { result ≡ false → (k : ℕ) → variable_text table.now k ≡ Some text.now → ⊥ }
{
    for variable in 0..table.variables() {
        if is_text_of(table, variable as u32, text) {
            return true;
        }
    }
    false
}

// Whether it is the text of this variable.
fn is_text_of(table: &VarTable, variable: u32, text: &Text) -> bool
    ensures { result ≡ false → variable_text table.now variable ≡ Some text.now → ⊥ }
{
    match table.text(variable) {
        Some(other) => other.equal(text),
        None => false,
    }
}

// Whether it is the name of a set or of an element.
fn is_of_set(table: &VarTable, text: &Text) -> bool
    ensures { result ≡ false → (k : ℕ) → IsOutside (slice_get table.now.sets k) text.now }
{
    for set in 0..table.sets() {
        if is_in_set(table, set as u32, text) {
            return true;
        }
    }
    false
}

// Whether it is the name of this set, or of one of its elements.
fn is_in_set(table: &VarTable, set: u32, text: &Text) -> bool
    ensures { result ≡ false → IsOutside (slice_get table.now.sets set) text.now }
{
    is_name_of(table, set, text) || is_element(table, set, text)
}

fn is_name_of(table: &VarTable, set: u32, text: &Text) -> bool
    ensures { result ≡ false → set_name table.now set ≡ Some text.now → ⊥ }
{
    match table.set_name(set) {
        Some(name) => name.equal(text),
        None => false,
    }
}

fn is_element(table: &VarTable, set: u32, text: &Text) -> bool
    ensures { result ≡ false → MatchOption (set_elements table.now set) (Unit {0}) (λ names. Contains names text.now → ⊥) }
{
    match table.elements(set) {
        Some(names) => is_among(names, text),
        None => false,
    }
}

fn is_among(names: &[Text], text: &Text) -> bool
    ensures { result ≡ false → Contains names.now text.now → ⊥ }
{
    for name in names {
        if name.equal(text) {
            return true;
        }
    }
    false
}
