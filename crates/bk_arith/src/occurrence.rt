//! The atoms of terms: the subterms that are not read further.

ghost use Rattle.std.specs.Prelude.{◌≡◌, IfOk, map, OnOk};
ghost use Rattle.std.specs.List.{list_any, fold, flat_map};
ghost use Rattle.bk_arith.specs.Same.{is_same};
ghost use Rattle.bk_arith.specs.Reading.{occurrences, with_atom, atoms_of};
ghost use Rattle.bk_arith.specs.Layout.{less, term_of};

use crate::comparison::Term;
use crate::sum::closed;
use bk_form::{BinOp, Form, UnOp, View};
use bk_io::Memory;
use std::alloc::Global;

/// The atoms of the terms, each once, in order of first occurrence.
pub fn atoms_of(alloc: Global, terms: &[Term<'_>]) -> Result<Vec<Form>, Memory>
    ensures { IfOk result (λ atoms. atoms.items ≡ atoms_of (map term_of terms.now)) }
{
    let mut atoms = Vec::new(alloc);
    for term in terms {
        add_term(alloc, &mut atoms, *term)?;
    }
    Ok(atoms)
}

fn add_term(alloc: Global, atoms: &mut Vec<Form>, term: Term<'_>) -> Result<(), Memory>
    ensures { OnOk result (atoms.new.items ≡ fold with_atom atoms.old.items (occurrences (term_of term.entry))) }
{
    add_atoms(alloc, atoms, term.upper)?;
    match term.lower {
        Some(lower) => add_atoms(alloc, atoms, lower),
        None => Ok(()),
    }
}

// Adds the atoms of the term that are not there.
fn add_atoms(alloc: Global, atoms: &mut Vec<Form>, form: &Form) -> Result<(), Memory>
    ensures { OnOk result (atoms.new.items ≡ fold with_atom atoms.old.items (occurrences form.now)) }
{
    match form.view() {
        View::Int(_) => Ok(()),
        View::Un(UnOp::Neg, operand) => add_atoms(alloc, atoms, operand),
        View::Bin(BinOp::Add | BinOp::Sub, left, right) => {
            add_atoms(alloc, atoms, left)?;
            add_atoms(alloc, atoms, right)
        }
        View::Bin(BinOp::Mul, left, right) => match (closed(left), closed(right)) {
            (Some(_), _) => add_atoms(alloc, atoms, right),
            (None, Some(_)) => add_atoms(alloc, atoms, left),
            (None, None) => add_atom(alloc, atoms, form),
        },
        _ => add_atom(alloc, atoms, form),
    }
}

fn add_atom(alloc: Global, atoms: &mut Vec<Form>, atom: &Form) -> Result<(), Memory>
    ensures { OnOk result (atoms.new.items ≡ with_atom atoms.old.items atom.now) }
{
    if !is_among(atom, atoms) {
        atoms.push(atom.copy(alloc)?)?;
    }
    Ok(())
}

fn is_among(form: &Form, forms: &[Form]) -> bool
    ensures { result ≡ list_any (is_same form.now) forms.now }
{
    forms.iter().any(|other| same(form, other))
}

/// Whether the two are one formula.
pub fn same(left: &Form, right: &Form) -> bool
    ensures { result ≡ is_same left.now right.now }
{
    left.equal(right)
}
