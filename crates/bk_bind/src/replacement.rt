//! Formulas in place of variables.

ghost use Rattle.std.specs.Prelude.{◌≡◌, ◌<◌, ◌^◌, map, Err, IfOk, OnOk, MatchOption};
ghost use Rattle.bk_form.specs.Formula.{variable, formula_size, formulas_size, formulas_of};
ghost use Rattle.bk_form.specs.Replacement.{replaced, all_replaced, looked_up};
ghost use Rattle.bk_bind.specs.Limits.{IsWithinLimits};
ghost use Rattle.bk_bind.specs.declared.error.BindFault.TheVariants.{TooLarge};

use crate::bound::{height_after, nodes_after};
use crate::error::BindFault;
use bk_form::{Form, Part, Ty, View};
use bk_io::Memory;
use bk_limits::{GREATEST_HEIGHT, MOST_NODES};
use std::alloc::Global;

/// The formula with the term of each pair in place of its variable, all at once; of several pairs for one variable the
/// first counts. The terms hold no loose bound number: whoever gives them sees to that.
pub fn replace(alloc: Global, form: &Form, pairs: &[(u32, Form)]) -> Result<Form, BindFault>
    ensures value { IfOk result (λ f. f ≡ replaced (looked_up pairs.now) form.now) }
    ensures within { OnOk result (IsWithinLimits (replaced (looked_up pairs.now) form.now)) }
    ensures too_large { result ≡ Err TooLarge → IsWithinLimits (replaced (looked_up pairs.now) form.now) → ⊥ }
{
    if nodes_after(form, pairs) > MOST_NODES {
        return Err(BindFault::TooLarge);
    }
    if height_after(form, pairs) > GREATEST_HEIGHT {
        return Err(BindFault::TooLarge);
    }
    Ok(build(alloc, form, pairs)?)
}

// The term of the first pair for the variable.
pub(crate) fn find<'a>(pairs: &'a [(u32, Form)], number: u32) -> Option<&'a Form>
    ensures { MatchOption result (looked_up pairs.now number ≡ variable number)
        (λ f. f.now ≡ looked_up pairs.now number) }
{
    for (variable, term) in pairs {
        if number == *variable {
            return Some(term);
        }
    }
    None
}

// The formula with the terms in place, which is known to be small enough.
#[tactic(auto, using(crate::proofs::Replaced::replacement))]
#[cycle(build)]
fn build(alloc: Global, form: &Form, pairs: &[(u32, Form)]) -> Result<Form, Memory>
    requires { formula_size (replaced (looked_up pairs.now) form.now) < 2 ^ 32 }
    ensures { IfOk result (λ f. f ≡ replaced (looked_up pairs.now) form.now) }
{
    match form.view() {
        View::Var(number) => match find(pairs, number) {
            Some(term) => term.copy(alloc),
            None => form.copy(alloc),
        },
        View::Un(op, operand) => {
            let operand = build(alloc, operand, pairs)?;
            Form::make(alloc, Part::Un(op, operand))
        }
        View::Bin(op, left, right) => {
            let left = build(alloc, left, pairs)?;
            let right = build(alloc, right, pairs)?;
            Form::make(alloc, Part::Bin(op, left, right))
        }
        View::All(types, body) => {
            let body = build(alloc, body, pairs)?;
            Form::make(alloc, Part::All(Ty::copy_all(types, alloc)?, body))
        }
        View::Some(types, body) => {
            let body = build(alloc, body, pairs)?;
            Form::make(alloc, Part::Some(Ty::copy_all(types, alloc)?, body))
        }
        View::Compr(ranges, body) => {
            let ranges = build_all(alloc, ranges, pairs)?;
            let body = build(alloc, body, pairs)?;
            Form::make(alloc, Part::Compr(ranges, body))
        }
        View::Lam(ranges, body, value) => {
            let ranges = build_all(alloc, ranges, pairs)?;
            let body = build(alloc, body, pairs)?;
            let value = build(alloc, value, pairs)?;
            Form::make(alloc, Part::Lam(ranges, body, value))
        }
        _ => form.copy(alloc),
    }
}

// The formulas with the terms in place.
#[tactic(auto, using(crate::proofs::Replaced::replacement))]
#[cycle(build)]
fn build_all(alloc: Global, forms: &[Form], pairs: &[(u32, Form)]) -> Result<Vec<Form>, Memory>
    requires { formulas_size (all_replaced (looked_up pairs.now) (formulas_of forms.now)) < 2 ^ 32 }
    ensures { IfOk result (λ fs. fs.items ≡ map (replaced (looked_up pairs.now)) forms.now) }
{
    let mut built = Vec::new(alloc);
    for form in forms {
        built.push(build(alloc, form, pairs)?)?;
    }
    Ok(built)
}
