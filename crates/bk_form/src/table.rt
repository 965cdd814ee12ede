// Tables of the sets and the variables that formulas speak of.

ghost use Rattle.std.specs.Prelude.{◌≡◌, ◌<◌, ◌^◌, length, Some, IfOk, IfSome, OnOk, OnErr, IsTrue};
ghost use Rattle.std.specs.Option.{option_copied, option_map};
ghost use Rattle.bk_form.specs.Table.{empty_table, with_set, with_size, with_variable, set_name, set_elements, listed_size};
ghost use Rattle.bk_form.specs.Table.{variable_text, variable_type, lists_type, IsCounted, IsDeferred, IsWellFormed, IsNumberable};

use crate::ty::Ty;
use bk_io::{Memory, Text};
use std::alloc::Global;
use std::marker::Model;

// A set: its name, its elements' names, and how many elements it has. A deferred set has no names, and the size 0 until it has one.
#[derive(Drop)]
struct SetRow {
    name: Text,
    elements: Vec<Text>,
    size: u32,
}

impl Model for SetRow {
    ghost use Rattle.bk_form.specs.Table.{SetEntry};
    ghost use Rattle.bk_form.specs.Codes.TableCodes.{coded_set};

    ghost Value = { SetEntry };

    ghost coded = { coded_set };

    ghost view = { λ s. record { name = s.name; elements = s.elements.items; size = s.size } };
}

impl SetRow {
    fn copy(&self, alloc: Global) -> Result<SetRow, Memory>
        ensures { IfOk result (λ s. s ≡ self.now) }
    {
        Ok(SetRow {
            name: self.name.copy(alloc)?,
            elements: copy_texts(&self.elements, alloc)?,
            size: self.size,
        })
    }
}

// A variable: its name and its type.
#[derive(Drop)]
struct VariableRow {
    text: Text,
    ty: Ty,
}

impl Model for VariableRow {
    ghost use Rattle.bk_form.specs.Table.{VariableEntry};
    ghost use Rattle.bk_form.specs.Codes.TableCodes.{coded_variable};

    ghost Value = { VariableEntry };

    ghost coded = { coded_variable };

    ghost view = { λ v. record { text = v.text; of_type = v.ty } };
}

impl VariableRow {
    fn copy(&self, alloc: Global) -> Result<VariableRow, Memory>
        ensures { IfOk result (λ v. v ≡ self.now) }
    {
        Ok(VariableRow {
            text: self.text.copy(alloc)?,
            ty: self.ty.copy(alloc)?,
        })
    }
}

/// The sets and the variables that formulas speak of, each by its number, which counts from 0 in the order of adding.
/// An enumerated set has as many elements as names, a deferred set has no names and perhaps no size yet; the types of the
/// variables have only listed sets.
#[derive(Drop)]
pub struct VarTable {
    sets: Vec<SetRow>,
    variables: Vec<VariableRow>,
}

impl Model for VarTable {
    ghost use Rattle.bk_form.specs.Table.{Table, IsWellFormed, IsNumberable};
    ghost use Rattle.bk_form.specs.Codes.TableCodes.{coded_table};

    ghost Value = { Table };

    ghost coded = { coded_table };

    ghost view = { λ t. record { sets = t.sets.items; variables = t.variables.items } };

    ghost invariant = { λ t. IsWellFormed (record { sets = t.sets.items; variables = t.variables.items }) ×
        IsNumberable (record { sets = t.sets.items; variables = t.variables.items }) };
}

impl VarTable {
    /// The table with no set and no variable.
    pub fn new(alloc: Global) -> VarTable
        ensures { result ≡ empty_table }
    {
        VarTable {
            sets: Vec::new(alloc),
            variables: Vec::new(alloc),
        }
    }

    /// Adds a set, and answers its number: an enumerated one with as many elements as names, or a deferred one without
    /// names, whose size is 0 until it has one.
    pub fn add_set(&mut self, name: Text, elements: Vec<Text>, size: u32) -> Result<u32, Memory>
        requires counted { IsCounted (record { name = name; elements = elements.items; size = size }) }
        requires few { length self.old.sets < 2 ^ 32 }
        ensures number { IfOk result (λ n. n ≡ length self.old.sets) }
        ensures ok { OnOk result (self.new ≡ with_set self.old (record { name = name; elements = elements.items; size = size })) }
        ensures err { OnErr result (self.new ≡ self.old) }
    {
        let number = self.sets.len() as u32;
        self.sets.push(SetRow {
            name,
            elements,
            size,
        })?;
        Ok(number)
    }

    /// Gives a deferred set this number of elements, whatever it had before.
    pub fn give_size(&mut self, set: u32, size: u32)
        requires deferred { IsDeferred self.old set }
        ensures { self.new ≡ with_size self.old set size }
    {
        self.sets[set as usize].size = size;
    }

    /// Adds a variable, and answers its number.
    pub fn add_variable(&mut self, text: Text, ty: Ty) -> Result<u32, Memory>
        requires listed { IsTrue (lists_type self.old ty) }
        requires few { length self.old.variables < 2 ^ 32 }
        ensures number { IfOk result (λ n. n ≡ length self.old.variables) }
        ensures ok { OnOk result (self.new ≡ with_variable self.old (record { text = text; of_type = ty })) }
        ensures err { OnErr result (self.new ≡ self.old) }
    {
        let number = self.variables.len() as u32;
        self.variables.push(VariableRow { text, ty })?;
        Ok(number)
    }

    /// How many sets it lists.
    pub fn sets(&self) -> usize
        ensures value { result ≡ length self.now.sets }
        ensures facts { IsWellFormed self.now }
        ensures few { IsNumberable self.now }
    {
        self.sets.len()
    }

    /// How many variables it lists.
    pub fn variables(&self) -> usize
        ensures value { result ≡ length self.now.variables }
        ensures facts { IsWellFormed self.now }
        ensures few { IsNumberable self.now }
    {
        self.variables.len()
    }

    /// The name of a set.
    pub fn set_name(&self, set: u32) -> Option<&Text>
        ensures { option_copied result ≡ set_name self.now set }
    {
        let row = self.sets.get(set as usize)?;
        Some(&row.name)
    }

    /// How many elements a set has; 0 where it has no size yet.
    pub fn size(&self, set: u32) -> u32
        ensures { result ≡ listed_size self.now set }
    {
        match self.sets.get(set as usize) {
            Some(row) => row.size,
            None => 0,
        }
    }

    /// The names of a set's elements, in order; a deferred set has none.
    pub fn elements(&self, set: u32) -> Option<&[Text]>
        ensures { option_copied result ≡ set_elements self.now set }
    {
        let row = self.sets.get(set as usize)?;
        Some(&row.elements)
    }

    /// The name of a variable.
    pub fn text(&self, variable: u32) -> Option<&Text>
        ensures { option_copied result ≡ variable_text self.now variable }
    {
        let row = self.variables.get(variable as usize)?;
        Some(&row.text)
    }

    /// The type of a variable.
    pub fn ty(&self, variable: u32) -> Option<&Ty>
        ensures value { option_copied result ≡ variable_type self.now variable }
        ensures listed { IfSome result (λ ty. IsTrue (lists_type self.now ty.now)) }
    {
        let row = self.variables.get(variable as usize)?;
        Some(&row.ty)
    }

    /// The same table again.
    pub fn copy(&self, alloc: Global) -> Result<VarTable, Memory>
        ensures { IfOk result (λ t. t ≡ self.now) }
    {
        Ok(VarTable {
            sets: copy_sets(&self.sets, alloc)?,
            variables: copy_variables(&self.variables, alloc)?,
        })
    }
}

fn copy_texts(texts: &[Text], alloc: Global) -> Result<Vec<Text>, Memory>
    ensures { IfOk result (λ copies. copies.items ≡ texts.now) }
{
    let mut copies = Vec::new(alloc);
    for text in texts {
        copies.push(text.copy(alloc)?)?;
    }
    Ok(copies)
}

fn copy_sets(sets: &[SetRow], alloc: Global) -> Result<Vec<SetRow>, Memory>
    ensures { IfOk result (λ copies. copies.items ≡ sets.now) }
{
    let mut copies = Vec::new(alloc);
    for set in sets {
        copies.push(set.copy(alloc)?)?;
    }
    Ok(copies)
}

fn copy_variables(variables: &[VariableRow], alloc: Global) -> Result<Vec<VariableRow>, Memory>
    ensures { IfOk result (λ copies. copies.items ≡ variables.now) }
{
    let mut copies = Vec::new(alloc);
    for variable in variables {
        copies.push(variable.copy(alloc)?)?;
    }
    Ok(copies)
}
