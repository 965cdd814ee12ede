//! What the members of comprehensions and lambdas meet.

ghost use Rattle.std.specs.Prelude.{◌≡◌, ◌++◌, ◌-◌, [], Err, IfOk, OnOk};
ghost use Rattle.bk_form.specs.Each.{Each};
ghost use Rattle.bk_form.specs.Formula.{comprehension, lambda, formulas_of};
ghost use Rattle.bk_form.specs.Replacement.{count};
ghost use Rattle.bk_bind.specs.Limits.{IsWithinLimits};
ghost use Rattle.bk_bind.specs.declared.error.BindFault.TheVariants.{TooLarge};
ghost use Rattle.bk_kernel.specs.Membership.{conjoined, conjunction, unpaired, memberships, met_by, applied_to};
ghost use Rattle.bk_kernel.specs.Held.{list_in, instance_in, IsLarge, HasLarge};

use crate::lists::{append, one_form};
use crate::views::sides;
use bk_bind::{BindFault, LawInstance, binary, bounded, open_body};
use bk_form::{BinOp, Form, Part, View};
use bk_io::Memory;
use std::alloc::Global;

/// What the terms of a member of a comprehension or lambda meet; None of any other set, and where the member is not written as
/// that many terms.
pub(crate) fn met_by(alloc: Global, element: &Form, set: &Form) -> Result<Option<Form>, BindFault>
    ensures value { IfOk result (λ o. o ≡ met_by element.now set.now) }
    ensures too_large { result ≡ Err TooLarge → IsLarge (met_by element.now set.now) }
{
    match set.view() {
        View::Compr(ranges, body) => in_comprehension(alloc, element, ranges, body),
        View::Lam(ranges, body, value) => in_lambda(alloc, element, ranges, body, value),
        _ => Ok(None),
    }
}

#[tactic(auto, using(crate::proofs::LargeParts::conjunctions_within))]
fn in_comprehension(
    alloc: Global,
    element: &Form,
    ranges: &[Form],
    body: &Form,
) -> Result<Option<Form>, BindFault>
    ensures value { IfOk result (λ o. o ≡ met_by element.now (comprehension (formulas_of ranges.now) body.now)) }
    ensures too_large { result ≡ Err TooLarge →
        IsLarge (met_by element.now (comprehension (formulas_of ranges.now) body.now)) }
{
    let Some(terms) = terms_of(alloc, element, ranges)? else {
        return Ok(None);
    };
    let mut parts = memberships(alloc, ranges, &terms)?;
    append(&mut parts, open_body(alloc, body, &terms)?)?;
    Ok(Some(conjunction(alloc, &parts)?))
}

#[tactic(auto, using(crate::proofs::LargeParts::conjunctions_within))]
fn in_lambda(
    alloc: Global,
    element: &Form,
    ranges: &[Form],
    body: &Form,
    value: &Form,
) -> Result<Option<Form>, BindFault>
    ensures value { IfOk result
        (λ o. o ≡ met_by element.now (lambda (formulas_of ranges.now) body.now value.now)) }
    ensures too_large { result ≡ Err TooLarge →
        IsLarge (met_by element.now (lambda (formulas_of ranges.now) body.now value.now)) }
{
    let Some((argument, image)) = sides(BinOp::Maps, element) else {
        return Ok(None);
    };
    let Some(terms) = terms_of(alloc, argument, ranges)? else {
        return Ok(None);
    };
    let mut parts = memberships(alloc, ranges, &terms)?;
    append(&mut parts, open_body(alloc, body, &terms)?)?;
    let there = open_body(alloc, value, &terms)?;
    let equation = binary(alloc, BinOp::Eq, image.copy(alloc)?, there)?;
    append(&mut parts, equation)?;
    Ok(Some(conjunction(alloc, &parts)?))
}

/// A lambda applied, which is the whole formula: its value there, under what the terms meet; None of any other function.
pub(crate) fn applied_to(
    alloc: Global,
    whole: &Form,
    function: &Form,
    argument: &Form,
) -> Result<Option<LawInstance>, BindFault>
    ensures value { IfOk result (λ o. instance_in o ≡ applied_to whole.now function.now argument.now) }
    ensures too_large { result ≡ Err TooLarge → HasLarge (applied_to whole.now function.now argument.now) }
{
    match function.view() {
        View::Lam(ranges, body, value) => lambda_at(alloc, whole, ranges, body, value, argument),
        _ => Ok(None),
    }
}

#[tactic(auto, using(crate::proofs::LargeParts::conjunctions_within))]
fn lambda_at(
    alloc: Global,
    whole: &Form,
    ranges: &[Form],
    body: &Form,
    value: &Form,
    argument: &Form,
) -> Result<Option<LawInstance>, BindFault>
    ensures value { IfOk result (λ o. instance_in o ≡
        applied_to whole.now (lambda (formulas_of ranges.now) body.now value.now) argument.now) }
    ensures too_large { result ≡ Err TooLarge →
        HasLarge (applied_to whole.now (lambda (formulas_of ranges.now) body.now value.now) argument.now) }
{
    let Some(terms) = terms_of(alloc, argument, ranges)? else {
        return Ok(None);
    };
    let mut parts = memberships(alloc, ranges, &terms)?;
    append(&mut parts, open_body(alloc, body, &terms)?)?;
    let side = conjunction(alloc, &parts)?;
    Ok(Some(LawInstance {
        sides: one_form(alloc, side)?,
        left: whole.copy(alloc)?,
        right: open_body(alloc, value, &terms)?,
    }))
}

// The terms of a member of these ranges, one for each range; None where it is not written as so many.
#[tactic(auto, using(crate::proofs::Tuplings::count_listed))]
fn terms_of(alloc: Global, element: &Form, ranges: &[Form]) -> Result<Option<Vec<Form>>, Memory>
    ensures { IfOk result (λ o. list_in o ≡ unpaired (count (formulas_of ranges.now) - 1) element.now []) }
{
    unpaired(alloc, ranges.len().saturating_sub(1), element)
}

// The terms of which the formula is written as pairs to the left, one more than `pairs`.
#[tactic(auto, using(crate::proofs::Tuplings::unpaired_steps))]
fn unpaired(alloc: Global, pairs: usize, form: &Form) -> Result<Option<Vec<Form>>, Memory>
    ensures { IfOk result (λ o. list_in o ≡ unpaired pairs form.now []) }
{
    if pairs == 0 {
        return Ok(Some(one_form(alloc, form.copy(alloc)?)?));
    }
    let Some((left, right)) = sides(BinOp::Maps, form) else {
        return Ok(None);
    };
    let Some(mut terms) = unpaired(alloc, pairs - 1, left)? else {
        return Ok(None);
    };
    append(&mut terms, right.copy(alloc)?)?;
    Ok(Some(terms))
}

// That each term is in its range.
fn memberships(alloc: Global, ranges: &[Form], terms: &[Form]) -> Result<Vec<Form>, BindFault>
    ensures value { IfOk result (λ fs. fs.items ≡ memberships (formulas_of ranges.now) terms.now) }
    ensures too_large { result ≡ Err TooLarge →
        Each IsWithinLimits (memberships (formulas_of ranges.now) terms.now) → ⊥ }
{
    let mut list = Vec::new(alloc);
    push_memberships(alloc, &mut list, ranges, terms)?;
    Ok(list)
}

fn push_memberships(
    alloc: Global,
    list: &mut Vec<Form>,
    ranges: &[Form],
    terms: &[Form],
) -> Result<(), BindFault>
    ensures value { OnOk result (list.new.items ≡
        list.old.items ++ memberships (formulas_of ranges.now) terms.now) }
    ensures too_large { result ≡ Err TooLarge →
        Each IsWithinLimits (memberships (formulas_of ranges.now) terms.now) → ⊥ }
{
    let [range, others @ ..] = ranges else {
        return Ok(());
    };
    let [term, rest @ ..] = terms else {
        return Ok(());
    };
    let member = binary(alloc, BinOp::In, term.copy(alloc)?, range.copy(alloc)?)?;
    append(list, member)?;
    push_memberships(alloc, list, others, rest)
}

// All of them joined by `&`, from the left.
#[tactic(auto, using(crate::proofs::LargeParts::conjunctions_within))]
fn conjunction(alloc: Global, forms: &[Form]) -> Result<Form, BindFault>
    ensures value { IfOk result (λ f. f ≡ conjunction forms.now) }
    ensures too_large { result ≡ Err TooLarge → IsWithinLimits (conjunction forms.now) → ⊥ }
{
    let [first, others @ ..] = forms else {
        return Ok(Form::make(alloc, Part::True)?);
    };
    joined(alloc, first.copy(alloc)?, others)
}

// The formula and all of these, joined from the left.
#[tactic(auto, using(crate::proofs::LargeParts::conjunctions_within))]
fn joined(alloc: Global, whole: Form, others: &[Form]) -> Result<Form, BindFault>
    ensures value { IfOk result (λ f. f ≡ conjoined whole others.now) }
    ensures too_large { result ≡ Err TooLarge → IsWithinLimits (conjoined whole others.now) → ⊥ }
{
    let [next, rest @ ..] = others else {
        return bounded(whole);
    };
    let more = binary(alloc, BinOp::And, whole, next.copy(alloc)?)?;
    joined(alloc, more, rest)
}
