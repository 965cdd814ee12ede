// Pools: formulas that are stored once each, with their parts before them.

ghost use Rattle.std.specs.Prelude.{◌≡◌, ◌<◌, ℕ, List, [], Some, length, map, slice_get, IfOk, OnOk, OnErr};
ghost use Rattle.bk_form.specs.Formula.{Formula, formulas_of};
ghost use Rattle.bk_form.specs.PoolKeys.{AreAt, AllBelow, IsWith, IsKey, IsHeld, held, AddsOnly, Differ, Grows};
ghost use Rattle.bk_form.specs.Parts.{IsPart, IsPartOfOne};
ghost use Rattle.bk_form.specs.Pools.{Continues, IsPool, IsShared};

use crate::form::{Form, Part, View};
use crate::pool::key::Key;
use crate::pool::range_lists::{range_number, ranges_at};
use crate::pool::type_lists::{type_number, types_at};
use crate::ty::Ty;
use bk_io::Memory;
use indexmap::{IndexMap, IndexSet};
use std::alloc::Global;
use std::marker::Model;
use std::slice;

mod key;
mod range_lists;
mod type_lists;

/// Different formulas, the parts of each before it: a list that only grows. A formula that is shared is made of members, so
/// that equal parts are one node.
#[derive(Drop)]
pub struct Pool {
    // the lists of types of binders and empty sets
    types: Vec<Vec<Ty>>,
    // the lists of ranges, each range by its number
    ranges: IndexSet<Vec<usize>>,
    // the formulas, by what they are
    members: IndexMap<Key, Form>,
}

impl Model for Pool {
    ghost use Rattle.std.specs.Prelude.{List, map};
    ghost use Rattle.bk_form.specs.Formula.{Formula};
    ghost use Rattle.bk_form.specs.PoolKeys.{held, IsHeld};
    ghost use Rattle.bk_form.specs.Codes.PoolCodes.{coded_pool};

    ghost Value = { List Formula };

    ghost coded = { coded_pool };

    ghost view = { λ p. held p.members.entries };

    ghost invariant = { λ p. IsHeld (map (λ ts. ts.items) p.types.items) (map (λ ns. ns.items) p.ranges.keys) p.members.entries };
}

impl Pool {
    /// No formulas. It takes no memory.
    pub fn new(alloc: Global) -> Result<Pool, Memory>
        ensures { IfOk result (λ p. p ≡ []) }
    {
        Ok(Pool {
            types: Vec::new(alloc),
            ranges: IndexSet::new(alloc),
            members: IndexMap::new(alloc),
        })
    }

    /// How many formulas there are.
    pub fn count(&self) -> u64
        ensures { result ≡ length self.now }
    {
        self.members.len() as u64
    }

    /// The formula again, made of members: those of its parts, itself among them, that were not in the pool are put after the
    /// others first. It walks the whole formula, with equal parts as often as they stand there. After `Memory` the pool may have
    /// some of the parts more.
    pub fn share(&mut self, form: &Form) -> Result<Form, Memory>
        ensures value { IfOk result (λ f. f ≡ form.now) }
        ensures list { OnOk result (IsShared self.old form.now self.new) }
        ensures err { OnErr result (Continues self.old self.new) }
    {
        let n = number(&mut self.types, &mut self.ranges, &mut self.members, form)?;
        let alloc = *self.members.allocator();
        self.members[n].copy(alloc)
    }

    /// No formula stands twice, and each stands after its parts. It does nothing: callers learn this of the list.
    pub fn is_pool(&self)
        ensures { IsPool self.now }
    {
        let _ = &self.members;
    }
}

// The number of the formula with this key, which is put last where no member has it.
fn put(
    types: &Vec<Vec<Ty>>,
    ranges: &IndexSet<Vec<usize>>,
    members: &mut IndexMap<Key, Form>,
    key: Key,
    form: Form,
) -> Result<usize, Memory>
    requires held { IsHeld (map (λ ts. ts.items) types.now.items) (map (λ ns. ns.items) ranges.now.keys) members.old.entries }
    requires of { IsKey (map (λ ts. ts.items) types.now.items) (map (λ ns. ns.items) ranges.now.keys) (held members.old.entries) key form }
    ensures held { IsHeld (map (λ ts. ts.items) types.now.items) (map (λ ns. ns.items) ranges.now.keys) members.new.entries }
    ensures number { IfOk result (λ n. slice_get (held members.new.entries) n ≡ Some form) }
    ensures list { OnOk result (IsWith (held members.old.entries) form (held members.new.entries)) }
    ensures err { OnErr result (held members.new.entries ≡ held members.old.entries) }
{
    if let Some(n) = members.get_index_of(&key) {
        return Ok(n);
    }
    let n = members.len();
    members.insert(key, form)?;
    Ok(n)
}

// The members of these numbers again.
fn members_at(members: &IndexMap<Key, Form>, numbers: &[usize]) -> Result<Vec<Form>, Memory>
    requires { AllBelow numbers.now (length (held members.now.entries)) }
    ensures { IfOk result (λ fs. AreAt (held members.now.entries) numbers.now (formulas_of fs.items)) }
{
    let alloc = *members.allocator();
    let mut copies = Vec::new(alloc);
    for n in numbers {
        let copy = members[*n].copy(alloc)?;
        copies.push(copy)?;
    }
    Ok(copies)
}

// The formula of this key, made of members.
fn made_of_members(
    types: &Vec<Vec<Ty>>,
    ranges: &IndexSet<Vec<usize>>,
    members: &IndexMap<Key, Form>,
    key: Key,
    form: &Form,
) -> Result<Form, Memory>
    requires of { IsKey (map (λ ts. ts.items) types.now.items) (map (λ ns. ns.items) ranges.now.keys) (held members.now.entries) key form.now }
    ensures { IfOk result (λ f. f ≡ form.now) }
{
    let alloc = *members.allocator();
    let _ = form.size();
    match key {
        Key::Un(op, n) => {
            let a = members[n].copy(alloc)?;
            Form::make(alloc, Part::Un(op, a))
        }
        Key::Bin(op, m, n) => {
            let a = members[m].copy(alloc)?;
            let b = members[n].copy(alloc)?;
            Form::make(alloc, Part::Bin(op, a, b))
        }
        Key::All(t, n) => {
            let body = members[n].copy(alloc)?;
            Form::make(
                alloc,
                Part::All(Ty::copy_all(types_at(types, t), alloc)?, body),
            )
        }
        Key::Some(t, n) => {
            let body = members[n].copy(alloc)?;
            Form::make(
                alloc,
                Part::Some(Ty::copy_all(types_at(types, t), alloc)?, body),
            )
        }
        Key::Compr(r, n) => {
            let over = members_at(members, ranges_at(ranges, r))?;
            let body = members[n].copy(alloc)?;
            Form::make(alloc, Part::Compr(over, body))
        }
        Key::Lam(r, m, n) => {
            let over = members_at(members, ranges_at(ranges, r))?;
            let body = members[m].copy(alloc)?;
            let value = members[n].copy(alloc)?;
            Form::make(alloc, Part::Lam(over, body, value))
        }
        _ => form.copy(alloc),
    }
}

// The number of the formula with this key, which is put last, made of members, where no member has it.
fn add(
    types: &Vec<Vec<Ty>>,
    ranges: &IndexSet<Vec<usize>>,
    members: &mut IndexMap<Key, Form>,
    key: Key,
    form: &Form,
) -> Result<usize, Memory>
    requires held { IsHeld (map (λ ts. ts.items) types.now.items) (map (λ ns. ns.items) ranges.now.keys) members.old.entries }
    requires of { IsKey (map (λ ts. ts.items) types.now.items) (map (λ ns. ns.items) ranges.now.keys) (held members.old.entries) key form.now }
    ensures held { IsHeld (map (λ ts. ts.items) types.now.items) (map (λ ns. ns.items) ranges.now.keys) members.new.entries }
    ensures number { IfOk result (λ n. slice_get (held members.new.entries) n ≡ Some form.now) }
    ensures list { OnOk result (IsWith (held members.old.entries) form.now (held members.new.entries)) }
    ensures err { OnErr result (held members.new.entries ≡ held members.old.entries) }
{
    let member = made_of_members(types, ranges, members, key, form)?;
    put(types, ranges, members, key, member)
}

// The number of the formula, after its parts and it were put after the others where they were not there yet.
#[tactic(auto, using(crate::proofs::Sizes::parts_are_smaller))]
#[cycle(number)]
fn number(
    types: &mut Vec<Vec<Ty>>,
    ranges: &mut IndexSet<Vec<usize>>,
    members: &mut IndexMap<Key, Form>,
    form: &Form,
) -> Result<usize, Memory>
    requires held { IsHeld (map (λ ts. ts.items) types.old.items) (map (λ ns. ns.items) ranges.old.keys) members.old.entries }
    ensures held { IsHeld (map (λ ts. ts.items) types.new.items) (map (λ ns. ns.items) ranges.new.keys) members.new.entries }
    ensures number { IfOk result (λ n. slice_get (held members.new.entries) n ≡ Some form.now) }
    ensures adds { AddsOnly (λ g. IsPart g form.now) (held members.old.entries) (held members.new.entries) }
{
    match form.view() {
        View::Un(op, a) => {
            let n = number(types, ranges, members, a)?;
            add(types, ranges, members, Key::Un(op, n), form)
        }
        View::Bin(op, a, b) => {
            let m = number(types, ranges, members, a)?;
            let n = number(types, ranges, members, b)?;
            add(types, ranges, members, Key::Bin(op, m, n), form)
        }
        View::All(us, body) => {
            let n = number(types, ranges, members, body)?;
            let t = type_number(types, us)?;
            add(types, ranges, members, Key::All(t, n), form)
        }
        View::Some(us, body) => {
            let n = number(types, ranges, members, body)?;
            let t = type_number(types, us)?;
            add(types, ranges, members, Key::Some(t, n), form)
        }
        View::Compr(over, body) => {
            let list = numbers(types, ranges, members, over)?;
            let n = number(types, ranges, members, body)?;
            let r = range_number(ranges, &list)?;
            add(types, ranges, members, Key::Compr(r, n), form)
        }
        View::Lam(over, body, value) => {
            let list = numbers(types, ranges, members, over)?;
            let m = number(types, ranges, members, body)?;
            let n = number(types, ranges, members, value)?;
            let r = range_number(ranges, &list)?;
            add(types, ranges, members, Key::Lam(r, m, n), form)
        }
        View::Empty(ty) => {
            let t = type_number(types, slice::from_ref(ty))?;
            add(types, ranges, members, Key::Empty(t), form)
        }
        View::Var(n) => add(types, ranges, members, Key::Var(n), form),
        View::Bound(n) => add(types, ranges, members, Key::Bound(n), form),
        View::Int(n) => add(types, ranges, members, Key::Int(n), form),
        View::Bool(b) => add(types, ranges, members, Key::Bool(b), form),
        View::Elem { set, index } => add(types, ranges, members, Key::Elem(set, index), form),
        View::Name(d) => add(types, ranges, members, Key::Name(d), form),
        View::True => add(types, ranges, members, Key::True, form),
        View::False => add(types, ranges, members, Key::False, form),
    }
}

// The numbers of formulas, after the same.
#[tactic(auto, using(crate::proofs::Sizes::parts_are_smaller))]
#[cycle(number)]
fn numbers(
    types: &mut Vec<Vec<Ty>>,
    ranges: &mut IndexSet<Vec<usize>>,
    members: &mut IndexMap<Key, Form>,
    forms: &[Form],
) -> Result<Vec<usize>, Memory>
    requires held { IsHeld (map (λ ts. ts.items) types.old.items) (map (λ ns. ns.items) ranges.old.keys) members.old.entries }
    ensures held { IsHeld (map (λ ts. ts.items) types.new.items) (map (λ ns. ns.items) ranges.new.keys) members.new.entries }
    ensures number { IfOk result (λ ns. AreAt (held members.new.entries) ns.items (formulas_of forms.now)) }
    ensures adds { AddsOnly (λ g. IsPartOfOne g (formulas_of forms.now)) (held members.old.entries) (held members.new.entries) }
{
    let mut list = Vec::new(*members.allocator());
    for form in forms {
        let n = number(types, ranges, members, form)?;
        list.push(n)?;
    }
    Ok(list)
}
