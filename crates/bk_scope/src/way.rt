// How a name comes to its type.

ghost use Rattle.std.specs.Prelude.{◌≡◌, IfOk, slice_get};
ghost use Rattle.bk_raw.specs.Meaning.Binders.{has_type, second};
ghost use Rattle.bk_elab_terms.specs.Visible.{visible_names, told_at, typing_of};
ghost use Rattle.bk_scope.specs.Shown.{refs, way_shown, such_shown};
ghost use Rattle.bk_statics.specs.Ways.{by_term, by_domain, by_conjuncts};
ghost use Rattle.bk_statics.specs.Ways as meant;

use crate::sight::{bound_texts, old_texts};
use bk_elab_terms::{Sight, Visible};
use bk_form::{Form, Ty};
use bk_io::Memory;
use bk_raw::{RawName, RawTerm};
use std::alloc::Global;
use std::rc::Rc;

/// Where a type comes from, with the names in scope there.
#[derive(Drop)]
pub enum Way<'a> {
    /// From nowhere.
    Nowhere,
    /// The type that a term gives.
    Term(Rc<Vec<Visible<'a>>>, &'a RawTerm),
    /// The type over which a domain ranges.
    Domain(Rc<Vec<Visible<'a>>>, &'a RawTerm),
    /// The first conjunct of a predicate that types it: a group of names, and which of them it is.
    Conjuncts(Rc<Group<'a>>, usize),
    /// The first conjunct of the predicate of `x :(P)` that types this written name.
    Such(Rc<Such<'a>>, &'a RawName),
    /// The type of another number.
    Same(u32),
}

/// Names that the conjuncts of one predicate type.
#[derive(Drop)]
pub struct Group<'a> {
    pub around: Vec<Visible<'a>>,
    pub names: Vec<&'a RawName>,
    pub predicate: &'a RawTerm,
}

/// `x, y :(P)`, whose old values have the numbers from `first` on.
#[derive(Drop)]
pub struct Such<'a> {
    pub around: Rc<Vec<Visible<'a>>>,
    pub first: u32,
    pub names: &'a [RawName],
    pub predicate: &'a RawTerm,
}

/// The types that numbers have, so far, and MAXINT.
#[derive(Clone, Copy)]
pub struct Typing<'a> {
    pub alloc: Global,
    pub max: i64,
    pub types: &'a [Option<Ty>],
}

impl<'a> Typing<'a> {
    // What terms are read by under these names.
    pub fn under(self, names: &'a [Visible<'a>]) -> Sight<'a>
        ensures max { result.max ≡ self.entry.max }
        ensures names { result.names.now ≡ names.now }
        ensures types { result.types.now ≡ self.entry.types.now }
    {
        Sight {
            alloc: self.alloc,
            max: self.max,
            names,
            types: self.types,
        }
    }

    // The type that a number has, if it has one.
    pub fn of(&self, variable: u32) -> Result<Option<Ty>, Memory>
        ensures { IfOk result (λ t. t ≡ typing_of self.now.types.now variable) }
    {
        match self.types.get(variable as usize) {
            Some(Some(ty)) => Ok(Some(ty.copy(self.alloc)?)),
            _ => Ok(None),
        }
    }

    // Whether a number has a type.
    pub fn has(&self, variable: u32) -> bool
        ensures { result ≡ has_type (typing_of self.now.types.now variable) }
    {
        matches!(self.types.get(variable as usize), Some(Some(_)))
    }

    // The type that a way gives.
    pub fn given(&self, way: &Way<'_>) -> Result<Option<Ty>, Memory>
        ensures { IfOk result (λ t. t ≡ meant.given_by self.now.max (typing_of self.now.types.now) (way_shown way.now)) }
    {
        match way {
            Way::Nowhere => Ok(None),
            Way::Term(names, term) => self.of_term(names, term),
            Way::Domain(names, term) => self.of_domain(names, term),
            Way::Conjuncts(group, place) => self.of_conjuncts(group, *place),
            Way::Such(such, name) => self.of_such(such, name),
            Way::Same(variable) => self.of(*variable),
        }
    }

    // The type that a term gives.
    fn of_term(&self, names: &[Visible<'_>], term: &RawTerm) -> Result<Option<Ty>, Memory>
        ensures { IfOk result (λ t. t ≡ meant.given_by self.now.max (typing_of self.now.types.now)
            (by_term (visible_names names.now) term.now)) }
    {
        let value = self.under(names).value(term)?;
        Ok(type_in(value.answer))
    }

    // The type over which a domain ranges.
    fn of_domain(&self, names: &[Visible<'_>], term: &RawTerm) -> Result<Option<Ty>, Memory>
        ensures { IfOk result (λ t. t ≡ meant.given_by self.now.max (typing_of self.now.types.now)
            (by_domain (visible_names names.now) term.now)) }
    {
        let domain = self.under(names).domain(term)?;
        Ok(type_in(domain.answer))
    }

    // The type that the conjuncts of a predicate give to the name at a place of the group.
    fn of_conjuncts(&self, group: &Group<'_>, place: usize) -> Result<Option<Ty>, Memory>
        ensures { IfOk result (λ t. t ≡ meant.given_by self.now.max (typing_of self.now.types.now)
            (by_conjuncts (visible_names group.now.around.items) (refs group.now.names.items) place group.now.predicate.now)) }
    {
        let types = self
            .under(&group.around)
            .typed_by(&group.names, group.predicate)?;
        at(self.alloc, &types, place)
    }

    // The type that the conjuncts of P give to a written name of `x :(P)`, the old values being in scope.
    fn of_such(&self, such: &Such<'_>, name: &RawName) -> Result<Option<Ty>, Memory>
        ensures { IfOk result (λ t. t ≡ meant.given_by self.now.max (typing_of self.now.types.now) (such_shown such.now name.now)) }
    {
        let texts = old_texts(self.alloc, such.names)?;
        let names = bound_texts(self.alloc, such.first, &texts, &such.around)?;
        let types = self.under(&names).typed_by(&[name], such.predicate)?;
        at(self.alloc, &types, 0)
    }
}

// The type beside a formula, if there is one.
fn type_in(answer: Option<(Form, Ty)>) -> Option<Ty>
    ensures { result ≡ second answer }
{
    match answer {
        Some((_, ty)) => Some(ty),
        None => None,
    }
}

// The type at a place, if there is one.
fn at(alloc: Global, types: &[Option<Ty>], place: usize) -> Result<Option<Ty>, Memory>
    ensures { IfOk result (λ t. t ≡ told_at (slice_get types.now place)) }
{
    match types.get(place) {
        Some(Some(ty)) => Ok(Some(ty.copy(alloc)?)),
        _ => Ok(None),
    }
}
