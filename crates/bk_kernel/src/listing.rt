//! The rules of pairs, of the cases of a term, and of induction. Each answers what the table says, none where the rule is no
//! instance.

ghost use Rattle.std.specs.Prelude.{◌≡◌, ◌∷◌, ◌++◌, [], true, false, length, Some, Err, IfOk, OnOk};
ghost use Rattle.bk_form.specs.Formula.{truth_value};
ghost use Rattle.bk_form.specs.Role.{role};
ghost use Rattle.bk_form.specs.Each.{Each};
ghost use Rattle.bk_form.specs.Table.{set_elements};
ghost use Rattle.bk_bind.specs.Limits.{IsWithinLimits};
ghost use Rattle.bk_bind.specs.declared.error.BindFault.TheVariants.{TooLarge};
ghost use Rattle.bk_arith.specs.Cases.{equations, interval_cases};
ghost use Rattle.bk_seq.specs.Sequents.{sequent_of};
ghost use Rattle.bk_kernel.specs.declared.rule.Rule.TheVariants.{Pair, Elems, Interval, Induct};
ghost use Rattle.bk_kernel.specs.Listing.{elements_of, named_elements, elements_of_type, listed_types, over_naturals, next_case};
ghost use Rattle.bk_kernel.specs.Rules.{branches};
ghost use Rattle.bk_kernel.specs.Held.{held, form_in, list_in, IsTooLarge};

use crate::branch::{Branch, goal, one, one_for_each, supposing, two};
use crate::lists::{append, one_form, one_type, two_types};
use crate::next::at_next;
use bk_arith::{ArithFault, cases};
use bk_bind::{BindFault, binary, for_all, for_some, open_body};
use bk_form::{BinOp, Domain, Form, Part, Ty, TyView, VarTable, View};
use bk_io::{Memory, Text};
use bk_seq::{Sequent, numbered};
use bk_types::{Role, role_of};
use std::alloc::Global;

/// The term is of a pair type: that it is some pair is a new hypothesis.
#[tactic(auto, using(crate::proofs::LargeParts::parts_within))]
pub(crate) fn as_pair(
    alloc: Global,
    types: &VarTable,
    sequent: &Sequent,
    term: &Form,
) -> Result<Option<Vec<Branch>>, BindFault>
    ensures value { IfOk result (λ o. held o ≡ branches types.now (sequent_of sequent.now) (Pair term.now)) }
    ensures too_large { result ≡ Err TooLarge → IsTooLarge (branches types.now (sequent_of sequent.now) (Pair term.now)) }
{
    let Some((first, second)) = parts_of(alloc, types, term)? else {
        return Ok(None);
    };
    let outer = Form::make(alloc, Part::Bound(1))?;
    let inner = Form::make(alloc, Part::Bound(0))?;
    let pair = binary(alloc, BinOp::Maps, outer, inner)?;
    let equation = binary(alloc, BinOp::Eq, term.copy(alloc)?, pair)?;
    let bound = two_types(alloc, first, second)?;
    let there = for_some(alloc, &bound, equation)?;
    let only = supposing(alloc, there, &sequent.goal)?;
    Ok(Some(one(alloc, only)?))
}

// The types of the two parts of a term of a pair type.
fn parts_of(alloc: Global, types: &VarTable, form: &Form) -> Result<Option<(Ty, Ty)>, Memory>
    ensures { IfOk result (λ o. o ≡ listed_types (role types.now [] form.now)) }
{
    let none = Vec::new(alloc);
    match role_of(alloc, form, &none, types)? {
        Role::Value(ty) => match ty.view() {
            TyView::Pair(first, second) => Ok(Some((first.copy(alloc)?, second.copy(alloc)?))),
            _ => Ok(None),
        },
        _ => Ok(None),
    }
}

/// The term is of `BOOL` or of an enumerated set: one sequent for each element, with the equality as a new hypothesis.
pub(crate) fn by_elements(
    alloc: Global,
    types: &VarTable,
    sequent: &Sequent,
    term: &Form,
) -> Result<Option<Vec<Branch>>, BindFault>
    ensures value { IfOk result (λ o. held o ≡ branches types.now (sequent_of sequent.now) (Elems term.now)) }
    ensures too_large { result ≡ Err TooLarge → IsTooLarge (branches types.now (sequent_of sequent.now) (Elems term.now)) }
{
    let Some(elements) = elements_of_type(alloc, types, term)? else {
        return Ok(None);
    };
    let list = equations(alloc, term, &elements)?;
    Ok(Some(one_for_each(alloc, &sequent.goal, &list)?))
}

// What the term may be, where it is of BOOL or of an enumerated set.
fn elements_of_type(
    alloc: Global,
    types: &VarTable,
    form: &Form,
) -> Result<Option<Vec<Form>>, Memory>
    ensures { IfOk result (λ o. list_in o ≡ elements_of_type types.now (role types.now [] form.now)) }
{
    let none = Vec::new(alloc);
    match role_of(alloc, form, &none, types)? {
        Role::Value(ty) => match ty.view() {
            TyView::Bool => Ok(Some(truth_values(alloc)?)),
            TyView::Enum(set) => elements(alloc, types, set),
            _ => Ok(None),
        },
        _ => Ok(None),
    }
}

fn truth_values(alloc: Global) -> Result<Vec<Form>, Memory>
    ensures { IfOk result (λ fs. fs.items ≡ truth_value false ∷ truth_value true ∷ []) }
{
    let no = Form::make(alloc, Part::Bool(false))?;
    let yes = Form::make(alloc, Part::Bool(true))?;
    Ok(Vec::from_array(alloc, [no, yes])?)
}

// The elements of the set in their order, where they have names.
fn elements(alloc: Global, types: &VarTable, set: u32) -> Result<Option<Vec<Form>>, Memory>
    ensures { IfOk result (λ o. list_in o ≡ named_elements set (set_elements types.now set)) }
{
    match types.elements(set) {
        Some(names) => listed_elements(alloc, set, names),
        None => Ok(None),
    }
}

// One for each name, where there is one.
#[tactic(auto, using(crate::proofs::ElementLists::by_names))]
fn listed_elements(alloc: Global, set: u32, names: &[Text]) -> Result<Option<Vec<Form>>, Memory>
    ensures { IfOk result (λ o. list_in o ≡ named_elements set (Some names.now)) }
{
    if names.is_empty() {
        return Ok(None);
    }
    Ok(Some(numbered_elements(alloc, set, names)?))
}

// The first elements of the set, one for each name.
#[tactic(auto, using(crate::proofs::ElementLists::one_more))]
fn numbered_elements(alloc: Global, set: u32, names: &[Text]) -> Result<Vec<Form>, Memory>
    ensures { IfOk result (λ fs. fs.items ≡ elements_of set 0 (length names.now)) }
{
    let mut list = Vec::new(alloc);
    for (index, _) in names.iter().enumerate() {
        let Ok(index) = u32::try_from(index) else {
            return Err(Memory);
        };
        list.push(Form::make(alloc, Part::Elem { set, index })?)?;
    }
    Ok(list)
}

// That the term is equal to each of them.
fn equations(alloc: Global, term: &Form, forms: &[Form]) -> Result<Vec<Form>, BindFault>
    ensures value { IfOk result (λ fs. fs.items ≡ equations term.now forms.now) }
    ensures too_large { result ≡ Err TooLarge → Each IsWithinLimits (equations term.now forms.now) → ⊥ }
{
    let mut list = Vec::new(alloc);
    push_equations(alloc, &mut list, term, forms)?;
    Ok(list)
}

fn push_equations(
    alloc: Global,
    list: &mut Vec<Form>,
    term: &Form,
    forms: &[Form],
) -> Result<(), BindFault>
    ensures value { OnOk result (list.new.items ≡ list.old.items ++ equations term.now forms.now) }
    ensures too_large { result ≡ Err TooLarge → Each IsWithinLimits (equations term.now forms.now) → ⊥ }
{
    let [first, others @ ..] = forms else {
        return Ok(());
    };
    let equation = binary(alloc, BinOp::Eq, term.copy(alloc)?, first.copy(alloc)?)?;
    append(list, equation)?;
    push_equations(alloc, list, term, others)
}

/// That hypothesis is a membership in an interval of literals: one sequent for each number, with the equality as a new
/// hypothesis.
pub(crate) fn by_numbers(
    alloc: Global,
    types: &VarTable,
    sequent: &Sequent,
    number: u32,
) -> Result<Option<Vec<Branch>>, Memory>
    ensures { IfOk result (λ o. held o ≡ branches types.now (sequent_of sequent.now) (Interval number)) }
{
    let _types = types;
    let Some(hypothesis) = numbered(&sequent.hyps, number) else {
        return Ok(None);
    };
    let Some(list) = numbers_of(alloc, hypothesis)? else {
        return Ok(None);
    };
    Ok(Some(one_for_each(alloc, &sequent.goal, &list)?))
}

// The equations with the numbers of an interval of literals.
fn numbers_of(alloc: Global, form: &Form) -> Result<Option<Vec<Form>>, Memory>
    ensures { IfOk result (λ o. list_in o ≡ interval_cases form.now) }
{
    match cases(alloc, form) {
        Ok(list) => Ok(Some(list)),
        Err(ArithFault::Cases) => Ok(None),
        Err(ArithFault::NotLinear(_)) => Ok(None),
        Err(ArithFault::Cert(_)) => Ok(None),
        Err(ArithFault::TooWide) => Ok(None),
        Err(ArithFault::Memory) => Err(Memory),
    }
}

/// The goal is `!x.(x : NATURAL => P)`: the goal `P` at 0, then the goal that `P` goes on from each natural number to the next.
pub(crate) fn by_induction(
    alloc: Global,
    types: &VarTable,
    sequent: &Sequent,
) -> Result<Option<Vec<Branch>>, BindFault>
    ensures value { IfOk result (λ o. held o ≡ branches types.now (sequent_of sequent.now) Induct) }
    ensures too_large { result ≡ Err TooLarge → IsTooLarge (branches types.now (sequent_of sequent.now) Induct) }
{
    let _types = types;
    let Some(body) = over_naturals(&sequent.goal) else {
        return Ok(None);
    };
    let zero = one_form(alloc, Form::make(alloc, Part::Int(0))?)?;
    let at_zero = open_body(alloc, body, &zero)?;
    let onward = next_case(alloc, body)?;
    let first = goal(alloc, &at_zero)?;
    let second = goal(alloc, &onward)?;
    Ok(Some(two(alloc, first, second)?))
}

// The body P of `!x.(x : NATURAL => P)`.
fn over_naturals(form: &Form) -> Option<&Form>
    ensures { form_in result ≡ over_naturals form.now }
{
    let View::All(types, body) = form.view() else {
        return None;
    };
    let [ty] = types else {
        return None;
    };
    let TyView::Int = ty.view() else {
        return None;
    };
    let View::Bin(BinOp::Imp, natural, rest) = body.view() else {
        return None;
    };
    let View::Bin(BinOp::In, variable, set) = natural.view() else {
        return None;
    };
    match (variable.view(), set.view()) {
        (View::Bound(0), View::Name(Domain::Natural)) => Some(rest),
        _ => None,
    }
}

// `!x.((x : NATURAL & P) => P1)`, where P1 is P at x + 1.
#[tactic(auto, using(crate::proofs::LargeParts::parts_within))]
fn next_case(alloc: Global, body: &Form) -> Result<Form, BindFault>
    ensures value { IfOk result (λ f. f ≡ next_case body.now) }
    ensures too_large { result ≡ Err TooLarge → IsWithinLimits (next_case body.now) → ⊥ }
{
    let variable = Form::make(alloc, Part::Bound(0))?;
    let naturals = Form::make(alloc, Part::Name(Domain::Natural))?;
    let natural = binary(alloc, BinOp::In, variable, naturals)?;
    let before = binary(alloc, BinOp::And, natural, body.copy(alloc)?)?;
    let after = at_next(alloc, body)?;
    let step = binary(alloc, BinOp::Imp, before, after)?;
    let types = one_type(alloc, Ty::int())?;
    for_all(alloc, &types, step)
}
