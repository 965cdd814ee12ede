// The elements of the ranges of a comprehension or lambda.

ghost use Rattle.std.specs.Prelude.{◌≡◌, [], Err, IfOk};
ghost use Rattle.bk_form.specs.Formula.{bound, binary, formulas_of};
ghost use Rattle.bk_form.specs.Role.{gives, role, roles, bind, element_type, element_types};
ghost use Rattle.bk_form.specs.Replacement.{count};
ghost use Rattle.bk_form.specs.declared.operator.BinOp.TheVariants.{In};
ghost use Rattle.bk_form.specs.Lifting.{lifted};
ghost use Rattle.bk_bind.specs.Limits.{IsWithinLimits};
ghost use Rattle.bk_bind.specs.declared.error.BindFault.TheVariants.{TooLarge};
ghost use Rattle.bk_wd.specs.WellDefined.{ranges_onto, in_ranges, all_in_ranges};

use crate::joining::{all_over, is_true, nothing, where_true};
use bk_bind::{BindFault, binary, lift};
use bk_form::{BinOp, Form, Part, Ty, TyView, VarTable};
use bk_io::Memory;
use bk_types::{Role, role_of};
use std::alloc::Global;

// `!x.(x : D => form)` for the elements of the ranges, which are of these types; `btrue` where `form` is, so that the ranges
// are not looked at then.
#[tactic(auto, using(crate::proofs::Within::ranges_within))]
pub(crate) fn all_in_ranges(
    alloc: Global,
    elements: &[Ty],
    ranges: &[Form],
    form: Form,
) -> Result<Form, BindFault>
    ensures value { IfOk result
        (λ f. f ≡ all_in_ranges (count (formulas_of ranges.now)) elements.now (formulas_of ranges.now) form) }
    ensures too_large { result ≡ Err TooLarge →
        IsWithinLimits (all_in_ranges (count (formulas_of ranges.now)) elements.now (formulas_of ranges.now) form) → ⊥ }
{
    if is_true(&form) {
        return Ok(form);
    }
    let supposed = in_ranges(alloc, ranges)?;
    all_over(alloc, elements, where_true(alloc, &supposed, form)?)
}

// That each variable that is bound over the ranges is in its own, joined to the left.
#[tactic(auto, using(crate::proofs::Within::ranges_within))]
fn in_ranges(alloc: Global, ranges: &[Form]) -> Result<Form, BindFault>
    ensures value { IfOk result (λ f. f ≡ in_ranges (count (formulas_of ranges.now)) (formulas_of ranges.now)) }
    ensures too_large { result ≡ Err TooLarge →
        IsWithinLimits (in_ranges (count (formulas_of ranges.now)) (formulas_of ranges.now)) → ⊥ }
{
    let number = number_of(ranges)?;
    match ranges {
        [] => Ok(nothing(alloc)?),
        [first, others @ ..] => {
            let first = in_range(alloc, number, first, number_of(others)?)?;
            in_ranges_onto(alloc, number, first, others)
        }
    }
}

// The condition, and that the variables of these ranges are in them.
#[tactic(auto, using(crate::proofs::Within::ranges_within, bk_bind::proofs::Within::parts_within))]
fn in_ranges_onto(
    alloc: Global,
    number: u32,
    form: Form,
    ranges: &[Form],
) -> Result<Form, BindFault>
    ensures value { IfOk result (λ f. f ≡ ranges_onto number form (formulas_of ranges.now)) }
    ensures too_large { result ≡ Err TooLarge → IsWithinLimits (ranges_onto number form (formulas_of ranges.now)) → ⊥ }
{
    match ranges {
        [] => Ok(form),
        [first, others @ ..] => {
            let element = in_range(alloc, number, first, number_of(others)?)?;
            let form = binary(alloc, BinOp::And, form, element)?;
            in_ranges_onto(alloc, number, form, others)
        }
    }
}

// That the variable bound at this place, from within, is in its range, which stands outside the binder.
#[tactic(auto, using(bk_bind::proofs::Within::parts_within))]
fn in_range(alloc: Global, number: u32, range: &Form, place: u32) -> Result<Form, BindFault>
    ensures value { IfOk result (λ f. f ≡ binary In (bound place) (lifted number 0 range.now)) }
    ensures too_large { result ≡ Err TooLarge → IsWithinLimits (binary In (bound place) (lifted number 0 range.now)) → ⊥ }
{
    let element = Form::make(alloc, Part::Bound(place))?;
    binary(alloc, BinOp::In, element, lift(alloc, range, number)?)
}

// How many ranges there are.
#[tactic(auto, using(bk_bind::proofs::Lifted::count_listed))]
fn number_of(ranges: &[Form]) -> Result<u32, Memory>
    ensures { IfOk result (λ n. n ≡ count (formulas_of ranges.now)) }
{
    if ranges.len() > u32::MAX as usize {
        return Err(Memory);
    }
    Ok(ranges.len() as u32)
}

// The types of the ranges' elements.
pub(crate) fn element_types(
    alloc: Global,
    types: &VarTable,
    around: &[Ty],
    ranges: &[Form],
) -> Result<Vec<Ty>, Memory>
    ensures { IfOk result
        (λ ts. ts.items ≡ element_types (roles types.now (bind around.now []) (formulas_of ranges.now))) }
{
    let mut found = Vec::new(alloc);
    for range in ranges {
        found.push(element_type(alloc, types, around, range)?)?;
    }
    Ok(found)
}

// The type of a range's elements; what is no range has BOOL.
fn element_type(alloc: Global, types: &VarTable, around: &[Ty], range: &Form) -> Result<Ty, Memory>
    ensures { IfOk result (λ t. t ≡ element_type (role types.now (bind around.now []) range.now)) }
{
    match role_of(alloc, range, around, types)? {
        Role::Value(ty) => element_of(alloc, &ty),
        Role::Domain(ty) => Ok(ty),
        Role::Predicate | Role::Nothing => Ok(Ty::boolean()),
    }
}

// The type of the elements of a value of this type.
fn element_of(alloc: Global, ty: &Ty) -> Result<Ty, Memory>
    ensures { IfOk result (λ t. t ≡ element_type (gives ty.now)) }
{
    match ty.view() {
        TyView::Set(elements) => elements.copy(alloc),
        _ => Ok(Ty::boolean()),
    }
}
