//! The rules that give terms or names to the variables of a quantifier. Each answers what the table says, none where the rule is
//! no instance.

ghost use Rattle.std.specs.Prelude.{◌≡◌, ◌∷◌, [], nat_eq, Err, IfOk};
ghost use Rattle.std.specs.List.{list_any, list_all};
ghost use Rattle.bk_form.specs.Role.{role};
ghost use Rattle.bk_bind.specs.declared.error.BindFault.TheVariants.{TooLarge};
ghost use Rattle.bk_seq.specs.Sequents.{sequent_of};
ghost use Rattle.bk_kernel.specs.Naming.{gives_type, give_each, names_of, is_new, are_distinct, are_fresh};
ghost use Rattle.bk_kernel.specs.Rules.{fixed, used, instantiated, named_for};
ghost use Rattle.bk_kernel.specs.Held.{held, IsTooLarge};

use crate::branch::{Branch, goal, one, supposing};
use crate::roles::same_type;
use crate::views::{existential, universal};
use bk_bind::{BindFault, free_in, open_body};
use bk_form::{Form, Part, Ty, VarTable};
use bk_io::Memory;
use bk_seq::{Sequent, numbered};
use bk_types::{Role, role_of};
use std::alloc::Global;

/// The goal is a `!`: its body for fresh names is the goal.
pub(crate) fn fixed(
    alloc: Global,
    types: &VarTable,
    sequent: &Sequent,
    names: &[u32],
) -> Result<Option<Vec<Branch>>, BindFault>
    ensures value { IfOk result (λ o. held o ≡ fixed types.now (sequent_of sequent.now) names.now) }
    ensures too_large { result ≡ Err TooLarge → IsTooLarge (fixed types.now (sequent_of sequent.now) names.now) }
{
    let Some((bound, body)) = universal(&sequent.goal) else {
        return Ok(None);
    };
    if !are_fresh(alloc, types, sequent, bound, names)? {
        return Ok(None);
    }
    let terms = names_of(alloc, names)?;
    let opened = open_body(alloc, body, &terms)?;
    let only = goal(alloc, &opened)?;
    Ok(Some(one(alloc, only)?))
}

/// The goal is a `#`: its body for terms of its types is the goal.
pub(crate) fn used(
    alloc: Global,
    types: &VarTable,
    sequent: &Sequent,
    terms: &[Form],
) -> Result<Option<Vec<Branch>>, BindFault>
    ensures value { IfOk result (λ o. held o ≡ used types.now (sequent_of sequent.now) terms.now) }
    ensures too_large { result ≡ Err TooLarge → IsTooLarge (used types.now (sequent_of sequent.now) terms.now) }
{
    let Some((bound, body)) = existential(&sequent.goal) else {
        return Ok(None);
    };
    if !give_each(alloc, types, bound, terms)? {
        return Ok(None);
    }
    let opened = open_body(alloc, body, terms)?;
    let only = goal(alloc, &opened)?;
    Ok(Some(one(alloc, only)?))
}

/// That hypothesis is a `!`: its body for terms of its types is a new hypothesis.
pub(crate) fn instantiated(
    alloc: Global,
    types: &VarTable,
    sequent: &Sequent,
    number: u32,
    terms: &[Form],
) -> Result<Option<Vec<Branch>>, BindFault>
    ensures value { IfOk result (λ o. held o ≡ instantiated types.now (sequent_of sequent.now) number terms.now) }
    ensures too_large { result ≡ Err TooLarge →
        IsTooLarge (instantiated types.now (sequent_of sequent.now) number terms.now) }
{
    let Some(hypothesis) = numbered(&sequent.hyps, number) else {
        return Ok(None);
    };
    let Some((bound, body)) = universal(hypothesis) else {
        return Ok(None);
    };
    if !give_each(alloc, types, bound, terms)? {
        return Ok(None);
    }
    let opened = open_body(alloc, body, terms)?;
    let only = supposing(alloc, opened, &sequent.goal)?;
    Ok(Some(one(alloc, only)?))
}

/// That hypothesis is a `#`: its body for fresh names is a new hypothesis.
pub(crate) fn named_for(
    alloc: Global,
    types: &VarTable,
    sequent: &Sequent,
    number: u32,
    names: &[u32],
) -> Result<Option<Vec<Branch>>, BindFault>
    ensures value { IfOk result (λ o. held o ≡ named_for types.now (sequent_of sequent.now) number names.now) }
    ensures too_large { result ≡ Err TooLarge →
        IsTooLarge (named_for types.now (sequent_of sequent.now) number names.now) }
{
    let Some(hypothesis) = numbered(&sequent.hyps, number) else {
        return Ok(None);
    };
    let Some((bound, body)) = existential(hypothesis) else {
        return Ok(None);
    };
    if !are_fresh(alloc, types, sequent, bound, names)? {
        return Ok(None);
    }
    let terms = names_of(alloc, names)?;
    let opened = open_body(alloc, body, &terms)?;
    let only = supposing(alloc, opened, &sequent.goal)?;
    Ok(Some(one(alloc, only)?))
}

// Whether there is one term for each type, which it gives.
fn give_each(alloc: Global, table: &VarTable, types: &[Ty], terms: &[Form]) -> Result<bool, Memory>
    ensures { IfOk result (λ b. b ≡ give_each table.now types.now terms.now) }
{
    let [ty, others @ ..] = types else {
        return Ok(terms.is_empty());
    };
    let [term, rest @ ..] = terms else {
        return Ok(false);
    };
    if !gives(alloc, table, term, ty)? {
        return Ok(false);
    }
    give_each(alloc, table, others, rest)
}

// Whether the term gives this type, under no binder.
fn gives(alloc: Global, table: &VarTable, term: &Form, ty: &Ty) -> Result<bool, Memory>
    ensures { IfOk result (λ b. b ≡ gives_type (role table.now [] term.now) ty.now) }
{
    let none = Vec::new(alloc);
    match role_of(alloc, term, &none, table)? {
        Role::Value(found) => Ok(same_type(&found, ty)),
        _ => Ok(false),
    }
}

// Whether the names have these types, each of them once, and stand in no formula of the sequent.
fn are_fresh(
    alloc: Global,
    table: &VarTable,
    sequent: &Sequent,
    types: &[Ty],
    names: &[u32],
) -> Result<bool, Memory>
    ensures { IfOk result (λ b. b ≡ are_fresh table.now (sequent_of sequent.now) types.now names.now) }
{
    let terms = names_of(alloc, names)?;
    let typed = give_each(alloc, table, types, &terms)?;
    Ok(typed && are_distinct(names) && are_new(sequent, names))
}

// The terms that names are.
fn names_of(alloc: Global, names: &[u32]) -> Result<Vec<Form>, Memory>
    ensures { IfOk result (λ fs. fs.items ≡ names_of names.now) }
{
    let mut terms = Vec::new(alloc);
    for name in names {
        terms.push(Form::make(alloc, Part::Var(*name))?)?;
    }
    Ok(terms)
}

// Whether each number is there once.
fn are_distinct(names: &[u32]) -> bool
    ensures { result ≡ are_distinct names.now }
{
    let [first, others @ ..] = names else {
        return true;
    };
    !is_among(*first, others) && are_distinct(others)
}

fn is_among(number: u32, numbers: &[u32]) -> bool
    ensures { result ≡ list_any (nat_eq number) numbers.now }
{
    numbers.iter().any(|other| number == *other)
}

// Whether none of the variables stands in the sequent.
fn are_new(sequent: &Sequent, names: &[u32]) -> bool
    ensures { result ≡ list_all (is_new (sequent.now.goal ∷ sequent.now.hyps.items)) names.now }
{
    names.iter().all(|name| is_new(sequent, *name))
}

fn is_new(sequent: &Sequent, name: u32) -> bool
    ensures { result ≡ is_new (sequent.now.goal ∷ sequent.now.hyps.items) name }
{
    !free_in(&sequent.goal, name) && is_absent(&sequent.hyps, name)
}

// Whether the variable stands in none of the formulas.
fn is_absent(forms: &[Form], name: u32) -> bool
    ensures { result ≡ is_new forms.now name }
{
    forms.iter().all(|form| !free_in(form, name))
}
