// Types, terms and names of a script.

ghost use Rattle.std.specs.Prelude.{◌≡◌, ◌≢◌, ℕ, List, [], Some, IfOk, IfSome, IsTrue, MatchOption, OnOk};
ghost use Rattle.std.specs.Option.{option_map};
ghost use Rattle.std.specs.List.{AllZip};
ghost use Rattle.bk_val.specs.ValueType.{ValueType, enum_type};
ghost use Rattle.bk_form.specs.Formula.{variable};
ghost use Rattle.bk_form.specs.Table.{lists_type};
ghost use Rattle.bk_raw.specs.Meaning.Names.{found, seen};
ghost use Rattle.bk_raw.specs.Errors.Faults.{Fault};
ghost use Rattle.bk_raw.specs.Meaning.Printed.{set_type_of, type_read};
ghost use Rattle.bk_raw.specs.Meaning.ScopeReading.{names_in};
ghost use Rattle.bk_elab_terms.specs.Shown.{SaysOf};
ghost use Rattle.bk_scripts.specs.Finding.{IsMeaning, set_among};
ghost use Rattle.bk_scripts.specs.Parts.{TermMeans, TermsMean, NameMeans, NamesMean};
ghost use Rattle.bk_scripts.specs.Reading.{around_of};

use crate::found::set_named;
use bk_elab_terms::{ElabFault, formula};
use bk_form::{Form, Ty, VarTable};
use bk_io::Memory;
use bk_raw::{RawTerm, RawType, RawTypeNode, RawTyped, Scope};
use std::alloc::Global;

// What terms are read in.
#[derive(Clone, Copy)]
pub(crate) struct Around<'a> {
    pub alloc: Global,
    pub table: &'a VarTable,
    pub scope: &'a Scope,
}

impl Around<'_> {
    // The formulas that the terms read as.
    pub(crate) fn terms(&self, terms: &[RawTerm]) -> Result<Option<Vec<Form>>, Memory>
        ensures { IfOk result (IsMeaning (TermsMean (around_of self.now) terms.now)) }
    {
        let mut forms = Vec::new(self.alloc);
        for term in terms {
            let Some(form) = self.term(term)? else {
                return Ok(None);
            };
            forms.push(form)?;
        }
        Ok(Some(forms))
    }

    // The formula that a term reads as.
    pub(crate) fn term(&self, term: &RawTerm) -> Result<Option<Form>, Memory>
        ensures { IfOk result (IsMeaning (TermMeans (around_of self.now) term.now)) }
    {
        match formula(self.alloc, term, self.scope, self.table) {
            Ok(form) => Ok(Some(form)),
            Err(fault) => {
                had_memory(fault)?;
                Ok(None)
            }
        }
    }

    // The variables that the names stand for.
    pub(crate) fn names(&self, names: &[RawTyped]) -> Result<Option<Vec<u32>>, Memory>
        ensures { IfOk result (IsMeaning (NamesMean (around_of self.now) names.now)) }
    {
        let mut numbers = Vec::new(self.alloc);
        for name in names {
            let Some(number) = self.name(name)? else {
                return Ok(None);
            };
            numbers.push(number)?;
        }
        Ok(Some(numbers))
    }

    // The variable that a name stands for, where its written type is the variable's.
    fn name(&self, name: &RawTyped) -> Result<Option<u32>, Memory>
        ensures { IfOk result (IsMeaning (NameMeans (around_of self.now) name.now)) }
    {
        let Some((number, ty)) = self.variable(name.name.text.as_bytes()) else {
            return Ok(None);
        };
        let written = type_in(self.alloc, self.scope, self.table, &name.ty)?;
        Ok(of_type(number, ty, written))
    }

    // The variable that a text stands for, and its type.
    fn variable(&self, text: &[u8]) -> Option<(u32, &Ty)>
        ensures { MatchOption result
            ((n : ℕ) (t : ValueType) → found 0 (names_in self.now.table.now self.now.scope.now) text.now ≡ seen (variable n) t → ⊥)
            (λ p. found 0 (names_in self.now.table.now self.now.scope.now) text.now ≡ seen (variable p.0) p.1.now) }
    {
        let Some(number) = self.scope.find(text) else {
            return None;
        };
        match self.table.ty(number) {
            Some(ty) => Some((number, ty)),
            None => None,
        }
    }
}

// The number, where the type that is written is this one.
fn of_type(number: u32, ty: &Ty, written: Option<Ty>) -> Option<u32>
    ensures { MatchOption result (written ≡ Some ty.now → ⊥) (λ n. (n ≡ number) × (written ≡ Some ty.now)) }
{
    match written {
        Some(written) => {
            if ty.equal(&written) {
                Some(number)
            } else {
                None
            }
        }
        None => None,
    }
}

// That memory was not what was wanting: then the term has a fault.
fn had_memory(fault: ElabFault) -> Result<(), Memory>
    ensures { OnOk result ((faults : List Fault) → SaysOf faults fault → faults ≢ []) }
{
    match fault {
        ElabFault::Memory => Err(Memory),
        _ => Ok(()),
    }
}

// The type that is written, where each name in it is that of a set.
pub(crate) fn type_in(
    alloc: Global,
    scope: &Scope,
    table: &VarTable,
    written: &RawType,
) -> Result<Option<Ty>, Memory>
    ensures value { IfOk result (λ t. t ≡ type_read (names_in table.now scope.now) written.now) }
    ensures listed { IfOk result (λ t. IfSome t (λ ty. IsTrue (lists_type table.now ty))) }
{
    match &written.node {
        RawTypeNode::Integer => Ok(Some(Ty::int())),
        RawTypeNode::Bool => Ok(Some(Ty::boolean())),
        RawTypeNode::Set(name) => Ok(set_type(scope, table, name.as_bytes())),
        RawTypeNode::Power(elements) => {
            let Some(elements) = type_in(alloc, scope, table, elements)? else {
                return Ok(None);
            };
            Ok(Some(Ty::set(alloc, elements)?))
        }
        RawTypeNode::Product(left, right) => {
            let first = type_in(alloc, scope, table, left)?;
            let second = type_in(alloc, scope, table, right)?;
            let (Some(first), Some(second)) = (first, second) else {
                return Ok(None);
            };
            Ok(Some(Ty::pair(alloc, first, second)?))
        }
    }
}

// The type of the elements of the set that a name stands for.
fn set_type(scope: &Scope, table: &VarTable, text: &[u8]) -> Option<Ty>
    ensures value { result ≡ set_type_of (found 0 (names_in table.now scope.now) text.now) }
    ensures listed { IfSome result (λ ty. IsTrue (lists_type table.now ty)) }
{
    match scope.find(text) {
        Some(_) => None,
        None => set_of(table, text),
    }
}

// The type of the elements of the set with the text.
fn set_of(table: &VarTable, text: &[u8]) -> Option<Ty>
    ensures value { result ≡ option_map enum_type (set_among 0 table.now.sets text.now) }
    ensures listed { IfSome result (λ ty. IsTrue (lists_type table.now ty)) }
{
    match set_named(table, text) {
        Some(set) => Some(Ty::enumerated(set)),
        None => None,
    }
}
