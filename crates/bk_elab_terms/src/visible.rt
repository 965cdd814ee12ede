//! Terms under names in scope, some of which may have no type yet.

ghost use Rattle.std.specs.Prelude.{◌≡◌, map, IfOk};
ghost use Rattle.bk_elab_terms.specs.Shown.{IsAsked, IsRead};
ghost use Rattle.bk_elab_terms.specs.Sights.{around_by, outer_around};
ghost use Rattle.bk_elab_terms.specs.Visible.{reading_by, types_by, predicate_asked, type_asked, value_asked, domain_asked};

use crate::binder::push_referred;
use crate::outcome::{Asked, Step};
use crate::part::{place_of, placed};
use crate::sight::{Local, Outer, Reader, Visible};
use bk_form::{Form, Ty};
use bk_io::Memory;
use bk_raw::{RawName, RawTerm};
use std::alloc::Global;
use std::collections::VecDeque;

/// What terms are read under: MAXINT, the names in scope, the innermost first, and the types of their variables, as far
/// as they have one. What uses a name without a type is no formula, and no fault of its own.
#[derive(Clone, Copy)]
pub struct Sight<'a> {
    pub alloc: Global,
    pub max: i64,
    pub names: &'a [Visible<'a>],
    pub types: &'a [Option<Ty>],
}

impl Sight<'_> {
    /// A predicate, and the first of its faults.
    pub fn predicate(&self, term: &RawTerm) -> Result<Asked<Form>, Memory>
        ensures { IfOk result (λ a. IsAsked a.answer a.fault (predicate_asked self.now term.now)) }
    {
        let read = self.part(true, term)?;
        Ok(read.outcome.ask_predicate().behind(read.fault))
    }

    /// An expression that takes this type, and the first of the faults.
    pub fn of_type(&self, term: &RawTerm, ty: &Ty) -> Result<Asked<Form>, Memory>
        ensures { IfOk result (λ a. IsAsked a.answer a.fault (type_asked self.now term.now ty.now)) }
    {
        let read = self.part(false, term)?;
        let asked = read.outcome.ask(self.alloc, place_of(term), ty)?;
        Ok(asked.behind(read.fault))
    }

    /// A value of any type, and the first of the faults.
    pub fn value(&self, term: &RawTerm) -> Result<Asked<(Form, Ty)>, Memory>
        ensures { IfOk result (λ a. IsAsked a.answer a.fault (value_asked self.now term.now)) }
    {
        let read = self.part(false, term)?;
        Ok(read.outcome.ask_value(place_of(term)).behind(read.fault))
    }

    /// A domain, with the type that it ranges over, and the first of the faults.
    pub fn domain(&self, term: &RawTerm) -> Result<Asked<(Form, Ty)>, Memory>
        ensures { IfOk result (λ a. IsAsked a.answer a.fault (domain_asked self.now term.now)) }
    {
        let read = self.part(false, term)?;
        let asked = read.outcome.ask_domain(self.alloc, place_of(term))?;
        Ok(asked.behind(read.fault))
    }

    /// The types that the conjuncts of a predicate give to names that it may name: each from the first conjunct `x : D`,
    /// `x <: D`, `x <<: D` or `x = E`, left to right, whose right side has a type by then.
    pub fn typed_by(
        &self,
        names: &[&RawName],
        predicate: &RawTerm,
    ) -> Result<Vec<Option<Ty>>, Memory>
        ensures { IfOk result (λ types. types.items ≡ types_by self.now names.now predicate.now) }
    {
        let mut reader = Reader {
            alloc: self.alloc,
            scope: self.outer(),
            locals: Vec::new(self.alloc),
        };
        push_referred(&mut reader, names)?;
        let mut kept = VecDeque::new(self.alloc);
        reader.clues(0, &mut kept, predicate)?;
        told_types(self.alloc, reader.locals)
    }

    // What a term reads as in a place where a predicate is wanted, or an expression.
    fn part(&self, wanted: bool, term: &RawTerm) -> Result<Step, Memory>
        ensures { IfOk result (λ s. IsRead s (reading_by wanted self.now term.now)) }
    {
        let mut reader = Reader {
            alloc: self.alloc,
            scope: self.outer(),
            locals: Vec::new(self.alloc),
        };
        let read = reader.read(term)?;
        Ok(placed(wanted, term, read))
    }

    // The names around.
    fn outer(&self) -> Outer<'_>
        ensures { outer_around result ≡ around_by self.now }
    {
        Outer::InSight(self.max, self.names, self.types)
    }
}

// The types of bound names, as far as they have one.
fn told_types(alloc: Global, locals: Vec<Local<'_>>) -> Result<Vec<Option<Ty>>, Memory>
    ensures { IfOk result (λ types. types.items ≡ map (λ l. l.ty) locals.entry.items) }
{
    let mut types = Vec::new(alloc);
    for local in locals {
        types.push(local.ty)?;
    }
    Ok(types)
}
