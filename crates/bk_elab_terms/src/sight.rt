// The names in scope of a term.

ghost use Rattle.std.specs.Prelude.{◌≡◌, Some, List, IfOk, ℕ, false, MatchOption, slice_get};
ghost use Rattle.std.specs.Str.{bytes_eq};
ghost use Rattle.bk_form.specs.Table.{SetEntry, set_elements, variable_type};
ghost use Rattle.bk_raw.specs.Meaning.Names.{Names, found, level_name};
ghost use Rattle.bk_raw.specs.Meaning.Names as named;
ghost use Rattle.bk_raw.specs.Meaning.Printed.{type_read, typed_empty};
ghost use Rattle.bk_raw.specs.Meaning.Names.{global};
ghost use Rattle.bk_raw.specs.Meaning.ScopeReading.{names_in, set_names, variable_meaning};
ghost use Rattle.bk_raw.specs.Meaning.TermReading as meant;
ghost use Rattle.bk_raw.specs.Errors.Faults.{unknown_name};
ghost use Rattle.bk_elab_terms.specs.Shown.{told, IsRead};
ghost use Rattle.bk_elab_terms.specs.Visible.{typing_of, typed_meaning, seen_names};
ghost use Rattle.bk_elab_terms.specs.Sights.{around_of, names_of, shown_sight, seen_or, set_in_front, outer_names, among, IsFirstAt};

use crate::blame::Fault;
use crate::outcome::{Step, no_type};
use bk_form::{Domain, Form, Part, Ty, TyView, VarTable, View};
use bk_io::{Memory, Text};
use bk_raw::{FaultKind, RawType, RawTypeNode, Scope};
use itoa::Buffer;
use std::alloc::Global;

/// A name that a quantifier, a comprehension or a lambda binds: its text, where it is declared, and its type once it
/// has one. Bound variables of printed formulas have no text.
#[derive(Drop)]
pub struct Local<'a> {
    pub text: &'a [u8],
    pub at: usize,
    pub ty: Option<Ty>,
}

/// A name in scope, and what it stands for.
#[derive(Clone, Copy)]
pub struct Visible<'a> {
    pub text: &'a [u8],
    pub meaning: Standing,
}

/// What a name in scope stands for: a variable by its number, an enumerated set, or an element of one.
#[derive(Clone, Copy, PartialEq, Eq, Debug)]
pub enum Standing {
    Variable(u32),
    Set(u32),
    Element { set: u32, index: u32 },
}

/// The names that no binder around binds, and MAXINT.
#[derive(Clone, Copy)]
pub enum Outer<'a> {
    /// The names of a scope over a table, with its MAXINT.
    OverTable(&'a Scope, &'a VarTable),
    /// MAXINT, names, of which the innermost is the first, and the types of their variables.
    InSight(i64, &'a [Visible<'a>], &'a [Option<Ty>]),
}

/// What is found of a name.
#[derive(Drop)]
pub enum Seen {
    /// It is not in scope.
    Unseen,
    /// It is in scope and has no type.
    Untyped,
    /// Its formula and type.
    Typed(Form, Ty),
}

/// Reads terms: the names in scope, and what they are read over.
#[derive(Drop)]
pub struct Reader<'a> {
    pub alloc: Global,
    pub scope: Outer<'a>,
    /// The bound names around, the innermost last.
    pub locals: Vec<Local<'a>>,
}

impl<'a> Reader<'a> {
    // What is found of a name.
    #[tactic(auto, using(crate::proofs::Sighted::finding))]
    pub(crate) fn find(&self, text: &[u8]) -> Result<Seen, Memory>
        ensures { IfOk result (λ s. shown_sight s ≡ named.found 0 (names_of self.now) text.now) }
    {
        for number in 0..self.locals.len() {
            let local = &self.locals[self.locals.len() - 1 - number];
            if local.text == text {
                return self.local(number);
            }
        }
        self.find_outside(text)
    }

    // The bound name with this number, counted outward from the innermost one.
    #[tactic(auto, using(crate::proofs::Sighted::finding_bound))]
    fn local(&self, number: usize) -> Result<Seen, Memory>
        ensures { IfOk result (λ s. shown_sight s ≡ named.local_sight number (named.local_at
            (names_of self.now) number)) }
    {
        if number >= self.locals.len() {
            return Ok(Seen::Unseen);
        }
        let Some(ty) = &self.locals[self.locals.len() - 1 - number].ty else {
            return Ok(Seen::Untyped);
        };
        let Ok(number) = u32::try_from(number) else {
            return Err(Memory);
        };
        let bound = Form::make(self.alloc, Part::Bound(number))?;
        Ok(Seen::Typed(bound, ty.copy(self.alloc)?))
    }

    // What `$k` stands for: the k-th bound variable from the outside.
    #[tactic(auto, using(crate::proofs::Sighted::finding_numbered))]
    fn numbered(&self, number: u32) -> Result<Seen, Memory>
        ensures { IfOk result (λ s. shown_sight s ≡
            named.bound_sight (named.count_locals (names_of self.now)) (names_of self.now) number) }
    {
        let count = self.locals.len();
        let number = number as usize;
        if number == 0 || number > count {
            return Ok(Seen::Unseen);
        }
        self.local(count - number)
    }

    // `MAXINT`.
    pub(crate) fn max(&self) -> i64
        ensures { result ≡ (around_of self.now).max }
    {
        match self.scope {
            Outer::OverTable(scope, _) => scope.max(),
            Outer::InSight(max, _, _) => max,
        }
    }

    // What is found of a name that no binder around binds.
    fn find_outside(&self, text: &[u8]) -> Result<Seen, Memory>
        ensures { IfOk result (λ s. shown_sight s ≡ named.found 0 (outer_names self.now) text.now) }
    {
        match self.scope {
            Outer::OverTable(scope, table) => {
                let tabled = Tabled {
                    alloc: self.alloc,
                    table,
                    scope,
                };
                tabled.find_outside(text)
            }
            Outer::InSight(_, names, types) => find_visible(self.alloc, names, types, text),
        }
    }

    // A name.
    pub(crate) fn name(&self, at: usize, text: &[u8]) -> Result<Step, Memory>
        ensures { IfOk result (λ s. IsRead s (meant.name_reading at (found 0 (names_of self.now) text.now))) }
    {
        let seen = self.find(text)?;
        Ok(seen_at(at, seen))
    }

    // A bound variable by its number from the outside.
    pub(crate) fn bound_name(&self, at: usize, number: u32) -> Result<Step, Memory>
        ensures { IfOk result (λ s. IsRead s (meant.name_reading at
            (named.bound_sight (named.count_locals (names_of self.now)) (names_of self.now) number))) }
    {
        let seen = self.numbered(number)?;
        Ok(seen_at(at, seen))
    }

    // A name at a level, which is written with a dollar sign and the level's number after it.
    pub(crate) fn level_name(&self, at: usize, name: &Text, level: u32) -> Result<Step, Memory>
        ensures { IfOk result (λ s. IsRead s
            (meant.name_reading at (found 0 (names_of self.now) (level_name name.now level)))) }
    {
        let mut text = Vec::from_slice(self.alloc, name.as_bytes())?;
        text.push(b'$')?;
        text.extend_from_slice(Buffer::new().format(level).as_bytes())?;
        self.name(at, &text)
    }

    // `{:T}`, where T is a type of sets.
    pub(crate) fn typed_empty(&self, at: usize, written: &RawType) -> Result<Step, Memory>
        ensures { IfOk result (λ s. IsRead s (typed_empty at (type_read (names_of self.now) written.now))) }
    {
        let Some(ty) = self.type_of(written)? else {
            return Ok(Step::silent(no_type(at)));
        };
        let TyView::Set(_) = ty.view() else {
            return Ok(Step::silent(no_type(at)));
        };
        let form = Form::make(self.alloc, Part::Empty(ty.copy(self.alloc)?))?;
        Ok(Step::giving(form, ty))
    }

    // The type that is written, where each name in it is that of a set.
    pub(crate) fn type_of(&self, written: &RawType) -> Result<Option<Ty>, Memory>
        ensures { IfOk result (λ t. t ≡ type_read (names_of self.now) written.now) }
    {
        match &written.node {
            RawTypeNode::Integer => Ok(Some(Ty::int())),
            RawTypeNode::Bool => Ok(Some(Ty::boolean())),
            RawTypeNode::Set(name) => {
                let Seen::Typed(form, _) = self.find(name.as_bytes())? else {
                    return Ok(None);
                };
                match form.view() {
                    View::Name(Domain::Enum(set)) => Ok(Some(Ty::enumerated(set))),
                    _ => Ok(None),
                }
            }
            RawTypeNode::Power(elements) => {
                let Some(elements) = self.type_of(elements)? else {
                    return Ok(None);
                };
                Ok(Some(Ty::set(self.alloc, elements)?))
            }
            RawTypeNode::Product(left, right) => {
                let (first, second) = (self.type_of(left)?, self.type_of(right)?);
                let (Some(first), Some(second)) = (first, second) else {
                    return Ok(None);
                };
                Ok(Some(Ty::pair(self.alloc, first, second)?))
            }
        }
    }
}

/// A scope over a table of variables and sets.
#[derive(Clone, Copy)]
pub struct Tabled<'a> {
    pub alloc: Global,
    pub table: &'a VarTable,
    pub scope: &'a Scope,
}

impl Tabled<'_> {
    // What is found of a name that no binder around binds: the last entry of the scope with the name is meant.
    #[tactic(auto, using(crate::proofs::Sighted::finding_outside))]
    fn find_outside(&self, text: &[u8]) -> Result<Seen, Memory>
        ensures { IfOk result (λ s. shown_sight s ≡ named.found 0 (names_in self.now.table.now self.now.scope.now) text.now) }
    {
        match self.scope.find(text) {
            Some(variable) => self.variable(variable),
            None => self.find_set(text),
        }
    }

    // What the variable of this number is, which the table may lack.
    fn variable(&self, variable: u32) -> Result<Seen, Memory>
        ensures { IfOk result (λ s. shown_sight s ≡
            named.sight 0 (variable_meaning variable (variable_type self.now.table.now variable))) }
    {
        let Some(ty) = self.table.ty(variable) else {
            return Ok(Seen::Unseen);
        };
        let form = Form::make(self.alloc, Part::Var(variable))?;
        Ok(Seen::Typed(form, ty.copy(self.alloc)?))
    }

    // What is found of a name among the sets of the table and their elements.
    #[tactic(auto, using(crate::proofs::Sighted::finding_sets))]
    fn find_set(&self, text: &[u8]) -> Result<Seen, Memory>
        ensures { IfOk result (λ s. shown_sight s ≡ named.found 0 (set_names 0 self.now.table.now.sets) text.now) }
    {
        for number in 0..self.table.sets() {
            if let Some(seen) = self.find_in_set(number as u32, text)? {
                return Ok(seen);
            }
        }
        Ok(Seen::Unseen)
    }

    // What a name is, where it is that of the set or of one of its elements.
    #[tactic(auto, using(crate::proofs::Sighted::finding_sets))]
    fn find_in_set(&self, set: u32, text: &[u8]) -> Result<Option<Seen>, Memory>
        ensures { IfOk result (λ s. (e : SetEntry) (rest : Names) → slice_get self.now.table.now.sets set ≡ Some e →
            found 0 (set_in_front set e rest) text.now ≡ seen_or s (found 0 rest text.now)) }
    {
        if self.is_named(set, text) {
            let form = Form::make(self.alloc, Part::Name(Domain::Enum(set)))?;
            let ty = Ty::set(self.alloc, Ty::enumerated(set))?;
            return Ok(Some(Seen::Typed(form, ty)));
        }
        let Some(index) = self.find_element(set, text)? else {
            return Ok(None);
        };
        let form = Form::make(self.alloc, Part::Elem { set, index })?;
        Ok(Some(Seen::Typed(form, Ty::enumerated(set))))
    }

    // Whether the set has this name.
    fn is_named(&self, set: u32, text: &[u8]) -> bool
        ensures { (e : SetEntry) → slice_get self.now.table.now.sets set ≡ Some e → result ≡ bytes_eq e.name text.now }
    {
        match self.table.set_name(set) {
            Some(name) => name.as_bytes() == text,
            None => false,
        }
    }

    // The number of the set's element with this name.
    #[tactic(auto, using(crate::proofs::Sighted::finding_elements))]
    fn find_element(&self, set: u32, text: &[u8]) -> Result<Option<u32>, Memory>
        ensures { IfOk result (λ found. (names : List (List ℕ)) → set_elements self.now.table.now set ≡ Some names →
            MatchOption found (among text.now names ≡ false) (IsFirstAt text.now names)) }
    {
        let Some(elements) = self.table.elements(set) else {
            return Ok(None);
        };
        for (index, element) in elements.iter().enumerate() {
            if element.as_bytes() == text {
                let Ok(index) = u32::try_from(index) else {
                    return Err(Memory);
                };
                return Ok(Some(index));
            }
        }
        Ok(None)
    }
}

// What is found of a name among these: the first with the text is meant.
#[tactic(auto, using(crate::proofs::Sighted::visibles))]
fn find_visible(
    alloc: Global,
    names: &[Visible<'_>],
    types: &[Option<Ty>],
    text: &[u8],
) -> Result<Seen, Memory>
    ensures { IfOk result (λ s. shown_sight s ≡ named.found 0 (seen_names types.now names.now) text.now) }
{
    for name in names {
        if name.text == text {
            return seen_as(alloc, types, name.meaning);
        }
    }
    Ok(Seen::Unseen)
}

// What is found of a name that stands for this.
fn seen_as(alloc: Global, types: &[Option<Ty>], meaning: Standing) -> Result<Seen, Memory>
    ensures { IfOk result (λ s. shown_sight s ≡ named.sight 0 (typed_meaning types.now meaning)) }
{
    match meaning {
        Standing::Variable(variable) => variable_seen(alloc, types, variable),
        Standing::Set(set) => {
            let form = Form::make(alloc, Part::Name(Domain::Enum(set)))?;
            let ty = Ty::set(alloc, Ty::enumerated(set))?;
            Ok(Seen::Typed(form, ty))
        }
        Standing::Element { set, index } => {
            let form = Form::make(alloc, Part::Elem { set, index })?;
            Ok(Seen::Typed(form, Ty::enumerated(set)))
        }
    }
}

// What is found of a variable, which may have no type.
fn variable_seen(alloc: Global, types: &[Option<Ty>], variable: u32) -> Result<Seen, Memory>
    ensures { IfOk result (λ s. shown_sight s ≡ named.sight 0 (global variable (typing_of types.now variable))) }
{
    let Some(Some(ty)) = types.get(variable as usize) else {
        return Ok(Seen::Untyped);
    };
    let form = Form::make(alloc, Part::Var(variable))?;
    Ok(Seen::Typed(form, ty.copy(alloc)?))
}

// What is found of a name at a byte. A name without a type silences what is around it, and is told where it is
// declared.
fn seen_at(at: usize, found: Seen) -> Step
    ensures { IsRead result (meant.name_reading at (shown_sight found)) }
{
    match found {
        Seen::Unseen => Step::silent(unknown(at)),
        Seen::Untyped => Step::silent(None),
        Seen::Typed(form, ty) => Step::giving(form, ty),
    }
}

// A name that is not in scope.
pub(crate) fn unknown(at: usize) -> Option<Fault>
    ensures { told result ≡ Some (unknown_name at) }
{
    Some(Fault {
        kind: FaultKind::UnknownName,
        place: at,
    })
}
