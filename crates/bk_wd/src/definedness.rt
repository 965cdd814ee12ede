//! That formulas are defined.

ghost use Rattle.std.specs.Prelude.{◌≡◌, [], Err, IfOk, OnOk};
ghost use Rattle.bk_form.specs.Formula.{formulas_of};
ghost use Rattle.bk_form.specs.Role.{role, bind};
ghost use Rattle.bk_bind.specs.Limits.{IsWithinLimits};
ghost use Rattle.bk_bind.specs.declared.error.BindFault.TheVariants.{TooLarge};
ghost use Rattle.bk_wd.specs.WellDefined.{unary_own, binary_own, defined, all_defined};

use crate::domains::functions_of;
use crate::joining::{all_over, both, nothing, where_true};
use crate::operands::{has_remainder, not_zero, sides_asked, zero};
use crate::ranges::{all_in_ranges, element_types};
use bk_bind::{BindFault, binary, bounded, unary};
use bk_form::{BinOp, Form, Part, Ty, UnOp, VarTable, View};
use bk_io::Memory;
use bk_types::role_of;
use std::alloc::Global;

/// WD(form): that each operator that is met from left to right is inside its domain (own to this project, after the
/// B-Book's operators). `a / b` asks that `b` is not 0, `a mod b` that `0 <= a` and `0 < b`, `a ** b` that `0 <= b`, `min` and
/// `max` that the set has an element, and `f(x)` that `f` is a function with `x` in its domain. The right side of `&`, `=>`
/// and `or` counts only where the left side leaves it open. Conditions that are `btrue` are left out. It says that the form
/// is defined where the form types in the table; it is made of every form.
pub fn defined(alloc: Global, types: &VarTable, form: &Form) -> Result<Form, BindFault>
    ensures value { IfOk result (λ f. f ≡ defined types.now [] form.now) }
    ensures within { OnOk result (IsWithinLimits (defined types.now [] form.now)) }
    ensures too_large { result ≡ Err TooLarge → IsWithinLimits (defined types.now [] form.now) → ⊥ }
{
    bounded(defined_under(alloc, types, &[], form)?)
}

/// WD of a form under variables of these types that are bound around it, the innermost last. It may be larger than the limits,
/// where it is a part of a formula.
#[tactic(auto, using(bk_form::proofs::Sizes::parts_are_smaller, crate::proofs::Within::ranges_within))]
#[cycle(defining)]
pub fn defined_under(
    alloc: Global,
    types: &VarTable,
    around: &[Ty],
    form: &Form,
) -> Result<Form, BindFault>
    ensures value { IfOk result (λ f. f ≡ defined types.now (bind around.now []) form.now) }
    ensures too_large { result ≡ Err TooLarge → IsWithinLimits (defined types.now (bind around.now []) form.now) → ⊥ }
{
    match form.view() {
        View::Un(op, operand) => {
            let part = defined_under(alloc, types, around, operand)?;
            both(alloc, part, own_of_one(alloc, op, operand)?)
        }
        View::Bin(op, left, right) => {
            let first = defined_under(alloc, types, around, left)?;
            let second = defined_under(alloc, types, around, right)?;
            let sides = sides_asked(alloc, op, left, first, second)?;
            both(
                alloc,
                sides,
                own_of_two(alloc, types, around, op, left, right)?,
            )
        }
        View::All(bound, body) | View::Some(bound, body) => {
            let inner = extended(alloc, around, bound)?;
            all_over(alloc, bound, defined_under(alloc, types, &inner, body)?)
        }
        View::Compr(ranges, body) => {
            let first = all_defined(alloc, types, around, nothing(alloc)?, ranges)?;
            let elements = element_types(alloc, types, around, ranges)?;
            let inner = extended(alloc, around, &elements)?;
            let part = defined_under(alloc, types, &inner, body)?;
            both(alloc, first, all_in_ranges(alloc, &elements, ranges, part)?)
        }
        View::Lam(ranges, body, value) => {
            let first = all_defined(alloc, types, around, nothing(alloc)?, ranges)?;
            let elements = element_types(alloc, types, around, ranges)?;
            let inner = extended(alloc, around, &elements)?;
            let part = defined_under(alloc, types, &inner, body)?;
            let image = defined_under(alloc, types, &inner, value)?;
            let part = both(alloc, part, where_true(alloc, body, image)?)?;
            both(alloc, first, all_in_ranges(alloc, &elements, ranges, part)?)
        }
        _ => Ok(nothing(alloc)?),
    }
}

// The condition, and what each of these formulas is asked, joined to the left.
#[tactic(auto, using(bk_form::proofs::Sizes::parts_are_smaller, crate::proofs::Within::ranges_within, crate::proofs::Firsts::within_first_defined))]
#[cycle(defining)]
fn all_defined(
    alloc: Global,
    types: &VarTable,
    around: &[Ty],
    form: Form,
    forms: &[Form],
) -> Result<Form, BindFault>
    ensures value { IfOk result (λ f. f ≡ all_defined types.now (bind around.now []) form (formulas_of forms.now)) }
    ensures too_large { result ≡ Err TooLarge →
        IsWithinLimits (all_defined types.now (bind around.now []) form (formulas_of forms.now)) → ⊥ }
{
    match forms {
        [] => Ok(form),
        [first, others @ ..] => {
            let form = both(alloc, form, defined_under(alloc, types, around, first)?)?;
            all_defined(alloc, types, around, form, others)
        }
    }
}

// The own condition of an operator on one formula: an operator is an arm here and a line of the definition.
#[tactic(auto, using(bk_bind::proofs::Within::parts_within))]
fn own_of_one(alloc: Global, op: UnOp, operand: &Form) -> Result<Form, BindFault>
    ensures value { IfOk result (λ f. f ≡ unary_own op operand.now) }
    ensures too_large { result ≡ Err TooLarge → IsWithinLimits (unary_own op operand.now) → ⊥ }
{
    match op {
        UnOp::Min | UnOp::Max => {
            let empty = Form::make(alloc, Part::Empty(Ty::set(alloc, Ty::int())?))?;
            let equal = binary(alloc, BinOp::Eq, operand.copy(alloc)?, empty)?;
            unary(alloc, UnOp::Not, equal)
        }
        _ => Ok(nothing(alloc)?),
    }
}

// The own condition of an operator on two formulas: an operator is an arm here and a line of the definition.
#[tactic(auto, using(bk_bind::proofs::Within::parts_within))]
fn own_of_two(
    alloc: Global,
    types: &VarTable,
    around: &[Ty],
    op: BinOp,
    left: &Form,
    right: &Form,
) -> Result<Form, BindFault>
    ensures value { IfOk result
        (λ f. f ≡ binary_own op (role types.now (bind around.now []) left.now) left.now right.now) }
    ensures too_large { result ≡ Err TooLarge →
        IsWithinLimits (binary_own op (role types.now (bind around.now []) left.now) left.now right.now) → ⊥ }
{
    match op {
        BinOp::Div => not_zero(alloc, right),
        BinOp::Mod => has_remainder(alloc, left, right),
        BinOp::Power => binary(alloc, BinOp::Le, zero(alloc)?, right.copy(alloc)?),
        BinOp::Apply => {
            let functions = functions_of(alloc, &role_of(alloc, left, around, types)?)?;
            let function = binary(alloc, BinOp::In, left.copy(alloc)?, functions)?;
            let domain = unary(alloc, UnOp::Dom, left.copy(alloc)?)?;
            let inside = binary(alloc, BinOp::In, right.copy(alloc)?, domain)?;
            binary(alloc, BinOp::And, function, inside)
        }
        _ => Ok(nothing(alloc)?),
    }
}

// The types of the variables bound around, and then of those that are bound next.
#[tactic(auto, using(crate::proofs::Binding::bind_append))]
fn extended(alloc: Global, around: &[Ty], bound: &[Ty]) -> Result<Vec<Ty>, Memory>
    ensures { IfOk result (λ ts. bind ts.items [] ≡ bind bound.now (bind around.now [])) }
{
    let mut all = Ty::copy_all(around, alloc)?;
    for ty in bound {
        all.push(ty.copy(alloc)?)?;
    }
    Ok(all)
}
