//! Variables made bound.

ghost use Rattle.std.specs.Prelude.{◌≡◌, ℕ, ◌+◌, ◌<◌, ◌^◌, nat_eq, map, Err, IfOk, OnOk};
ghost use Rattle.std.specs.HashMap.{get};
ghost use Rattle.bk_form.specs.Formula.{bound, formula_size, formulas_size, formulas_of};
ghost use Rattle.bk_bind.specs.Closing.{closed_over_each};
ghost use Rattle.bk_bind.specs.Together.{place_above, bound_together, all_bound_together};
ghost use Rattle.bk_bind.specs.Limits.{IsWithinLimits};
ghost use Rattle.bk_bind.specs.declared.error.BindFault.TheVariants.{TooLarge};

use crate::error::BindFault;
use crate::lifting::{under_ranges, under_types};
use bk_form::{Form, Part, Ty, View};
use bk_io::Memory;
use bk_limits::{GREATEST_HEIGHT, MOST_NODES};
use std::alloc::Global;
use std::collections::HashMap;

/// The formula with these variables bound together, the last one innermost: what stands in a quantifier over them. The
/// formula holds no loose bound number: whoever gives it sees to that. `Memory` comes too where 32 bits do not number the
/// variables that are bound.
#[tactic(auto, using(crate::proofs::ClosedOver::closed_limits))]
pub fn close(alloc: Global, form: &Form, variables: &[u32]) -> Result<Form, BindFault>
    ensures value { IfOk result (λ f. f ≡ closed_over_each variables.now form.now) }
    ensures within { OnOk result (IsWithinLimits (closed_over_each variables.now form.now)) }
    ensures too_large { result ≡ Err TooLarge → IsWithinLimits (closed_over_each variables.now form.now) → ⊥ }
{
    if form.size() > MOST_NODES || form.depth() > GREATEST_HEIGHT {
        return Err(BindFault::TooLarge);
    }
    Ok(closed_over_each(alloc, form, variables)?)
}

/// What `close` makes, of any size.
pub fn closed(alloc: Global, form: &Form, variables: &[u32]) -> Result<Form, Memory>
    ensures { IfOk result (λ f. f ≡ closed_over_each variables.now form.now) }
{
    let _nodes = form.size();
    closed_over_each(alloc, form, variables)
}

// All variables are bound in one walk through the formula.
fn closed_over_each(alloc: Global, form: &Form, variables: &[u32]) -> Result<Form, Memory>
    requires { formula_size form.now < 2 ^ 32 }
    ensures { IfOk result (λ f. f ≡ closed_over_each variables.now form.now) }
{
    let places = places_of(alloc, variables)?;
    bound_together(alloc, form, &places, 0)
}

// The place of each variable: how many are bound within it. Of equal ones the last counts.
fn places_of(alloc: Global, variables: &[u32]) -> Result<HashMap<u32, usize>, Memory>
    ensures { IfOk result (λ places. (n : ℕ) → get nat_eq places n ≡ place_above 0 variables.now n) }
{
    let mut places = HashMap::new(alloc);
    let mut within = variables.len();
    for variable in variables {
        within -= 1;
        places.insert(*variable, within)?;
    }
    Ok(places)
}

// The formula with the variables bound at their places, where it is under so many binders of its own.
#[tactic(auto, using(crate::proofs::Together::closing))]
#[cycle(closing)]
fn bound_together(
    alloc: Global,
    form: &Form,
    places: &HashMap<u32, usize>,
    own: usize,
) -> Result<Form, Memory>
    requires { formula_size (bound_together (get nat_eq places.now) own form.now) < 2 ^ 32 }
    ensures { IfOk result (λ f. f ≡ bound_together (get nat_eq places.now) own form.now) }
{
    match form.view() {
        View::Var(number) => match places.get(&number) {
            Some(place) => bound_at(alloc, *place, own),
            None => form.copy(alloc),
        },
        View::Un(op, operand) => {
            let operand = bound_together(alloc, operand, places, own)?;
            Form::make(alloc, Part::Un(op, operand))
        }
        View::Bin(op, left, right) => {
            let left = bound_together(alloc, left, places, own)?;
            let right = bound_together(alloc, right, places, own)?;
            Form::make(alloc, Part::Bin(op, left, right))
        }
        View::All(types, body) => {
            let body = bound_together(alloc, body, places, under_types(types, own)?)?;
            Form::make(alloc, Part::All(Ty::copy_all(types, alloc)?, body))
        }
        View::Some(types, body) => {
            let body = bound_together(alloc, body, places, under_types(types, own)?)?;
            Form::make(alloc, Part::Some(Ty::copy_all(types, alloc)?, body))
        }
        View::Compr(ranges, body) => {
            let body = bound_together(alloc, body, places, under_ranges(ranges, own)?)?;
            let ranges = all_bound_together(alloc, ranges, places, own)?;
            Form::make(alloc, Part::Compr(ranges, body))
        }
        View::Lam(ranges, body, value) => {
            let inner = under_ranges(ranges, own)?;
            let body = bound_together(alloc, body, places, inner)?;
            let value = bound_together(alloc, value, places, inner)?;
            let ranges = all_bound_together(alloc, ranges, places, own)?;
            Form::make(alloc, Part::Lam(ranges, body, value))
        }
        _ => form.copy(alloc),
    }
}

// The formulas with the variables bound.
#[tactic(auto, using(crate::proofs::Together::closing))]
#[cycle(closing)]
fn all_bound_together(
    alloc: Global,
    forms: &[Form],
    places: &HashMap<u32, usize>,
    own: usize,
) -> Result<Vec<Form>, Memory>
    requires { formulas_size (all_bound_together (get nat_eq places.now) own (formulas_of forms.now)) < 2 ^ 32 }
    ensures { IfOk result (λ fs. fs.items ≡ map (bound_together (get nat_eq places.now) own) forms.now) }
{
    let mut closed = Vec::new(alloc);
    for form in forms {
        closed.push(bound_together(alloc, form, places, own)?)?;
    }
    Ok(closed)
}

// The bound number of a variable at this place, under so many binders. `Memory` comes too where 32 bits do not number it.
fn bound_at(alloc: Global, place: usize, own: usize) -> Result<Form, Memory>
    ensures { IfOk result (λ f. f ≡ bound (place + own)) }
{
    let number = place.checked_add(own).ok_or(Memory)?;
    if number > u32::MAX as usize {
        return Err(Memory);
    }
    Form::make(alloc, Part::Bound(number as u32))
}
