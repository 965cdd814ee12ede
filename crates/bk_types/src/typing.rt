//! The types of formulas.

ghost use Rattle.std.specs.Prelude.{◌≡◌, ◌≢◌, ◌++◌, true, false, Ok, Err, IfOk, OnOk, MatchOption, []};
ghost use Rattle.bk_val.specs.ValueType.{ValueType};
ghost use Rattle.bk_form.specs.Formula.{formulas_of};
ghost use Rattle.bk_form.specs.Role.{role, roles, gives, bind, are_ranges, each_gives_set, element_types, tuple_type, tuple_type_onto};
ghost use Rattle.bk_form.specs.Role.{quantifier_role, comprehension_role, lambda_role};
ghost use Rattle.bk_types.specs.Shown.{shown_role};
ghost use Rattle.bk_types.specs.Laws.{TypedHaveValues};
ghost use Rattle.bk_types.specs.declared.error.TypeFault.TheVariants.{NoType};

use crate::error::TypeFault;
use crate::leaf::{bound_role, element_role, empty_role, lists_all, named_role, variable_role};
use crate::operator::{binary_role, unary_role};
use crate::part::{elements, is_predicate, value};
use crate::role::Role;
use bk_form::{Form, Ty, VarTable, View};
use bk_io::Memory;
use std::alloc::Global;

/// What the formula stands for; `bound` gives the types of its loose bound numbers, the innermost last.
pub fn role_of(alloc: Global, form: &Form, bound: &[Ty], table: &VarTable) -> Result<Role, Memory>
    ensures { IfOk result (λ r. shown_role r ≡ role table.now (bind bound.now []) form.now) }
{
    let mut around = Ty::copy_all(bound, alloc)?;
    role_under(alloc, form, &mut around, table)
}

/// The type of the value that the formula gives; `bound` gives the types of its loose bound numbers, the innermost
/// last.
pub fn synth(alloc: Global, form: &Form, bound: &[Ty], table: &VarTable) -> Result<Ty, TypeFault>
    ensures gives { IfOk result (λ t. role table.now (bind bound.now []) form.now ≡ gives t) }
    ensures no_type { result ≡ Err NoType → (t : ValueType) → role table.now (bind bound.now []) form.now ≢ gives t }
{
    match role_of(alloc, form, bound, table)? {
        Role::Value(ty) => Ok(ty),
        _ => Err(TypeFault::NoType),
    }
}

/// That the formula takes this type. A formula takes the type that it gives and no other, since each empty set in it
/// has its type; `bound` gives the types of its loose bound numbers, the innermost last.
pub fn check(
    alloc: Global,
    form: &Form,
    ty: &Ty,
    bound: &[Ty],
    table: &VarTable,
) -> Result<(), TypeFault>
    ensures takes { OnOk result (role table.now (bind bound.now []) form.now ≡ gives ty.now) }
    ensures no_type { result ≡ Err NoType → role table.now (bind bound.now []) form.now ≢ gives ty.now }
{
    let found = synth(alloc, form, bound, table)?;
    if !found.equal(ty) {
        return Err(TypeFault::NoType);
    }
    Ok(())
}

/// A formula that types has a value of its type. It does nothing.
pub fn typed_have_values()
    ensures { TypedHaveValues }
{}

// What the formula stands for under bound variables of these types, the innermost last.
#[tactic(auto, using(bk_form::proofs::Sizes::parts_are_smaller))]
#[cycle(role)]
fn role_under(
    alloc: Global,
    form: &Form,
    around: &mut Vec<Ty>,
    table: &VarTable,
) -> Result<Role, Memory>
    ensures role { IfOk result (λ r. shown_role r ≡ role table.now (bind around.old.items []) form.now) }
    ensures around { OnOk result (around.new.items ≡ around.old.items) }
{
    match form.view() {
        View::Var(number) => variable_role(alloc, number, table),
        View::Bound(number) => bound_role(alloc, number, around, table),
        View::Int(_) => Ok(Role::Value(Ty::int())),
        View::Bool(_) => Ok(Role::Value(Ty::boolean())),
        View::Elem { set, index } => Ok(element_role(set, index, table)),
        View::Empty(ty) => empty_role(alloc, ty, table),
        View::Name(domain) => named_role(alloc, domain, table),
        View::True | View::False => Ok(Role::Predicate),
        View::Un(op, operand) => {
            let operand = role_under(alloc, operand, around, table)?;
            unary_role(alloc, op, &operand)
        }
        View::Bin(op, left, right) => {
            let left = role_under(alloc, left, around, table)?;
            let right = role_under(alloc, right, around, table)?;
            binary_role(alloc, op, &left, &right)
        }
        View::All(types, body) => quantified(alloc, types, body, around, table),
        View::Some(types, body) => quantified(alloc, types, body, around, table),
        View::Compr(ranges, body) => comprehension(alloc, ranges, body, around, table),
        View::Lam(ranges, body, image) => lambda(alloc, ranges, body, image, around, table),
    }
}

// What a quantifier over a body stands for.
#[tactic(auto, using(crate::proofs::Operands::quantifiers))]
#[cycle(role)]
fn quantified(
    alloc: Global,
    types: &[Ty],
    body: &Form,
    around: &mut Vec<Ty>,
    table: &VarTable,
) -> Result<Role, Memory>
    ensures role { IfOk result (λ r. shown_role r ≡ quantifier_role table.now types.now
        (role table.now (bind types.now (bind around.old.items [])) body.now)) }
    ensures around { OnOk result (around.new.items ≡ around.old.items) }
{
    if !lists_all(types, table) {
        return Ok(Role::Nothing);
    }
    let body = role_inside(alloc, types, body, around, table)?;
    if is_predicate(&body) {
        return Ok(Role::Predicate);
    }
    Ok(Role::Nothing)
}

// What a body stands for under further bound variables of these types.
#[tactic(auto, using(crate::proofs::Bounds::bounds))]
#[cycle(role)]
fn role_inside(
    alloc: Global,
    types: &[Ty],
    body: &Form,
    around: &mut Vec<Ty>,
    table: &VarTable,
) -> Result<Role, Memory>
    ensures role { IfOk result (λ r. shown_role r ≡ role table.now (bind types.now
        (bind around.old.items [])) body.now) }
    ensures around { OnOk result (around.new.items ≡ around.old.items) }
{
    let depth = around.len();
    push_all(alloc, around, types)?;
    let role = role_under(alloc, body, around, table)?;
    around.truncate(depth);
    Ok(role)
}

// The types go after the others.
fn push_all(alloc: Global, around: &mut Vec<Ty>, types: &[Ty]) -> Result<(), Memory>
    ensures { OnOk result (around.new.items ≡ around.old.items ++ types.now) }
{
    for ty in types {
        around.push(ty.copy(alloc)?)?;
    }
    Ok(())
}

// What a comprehension stands for.
#[tactic(auto, using(crate::proofs::Operands::comprehensions))]
#[cycle(role)]
fn comprehension(
    alloc: Global,
    ranges: &[Form],
    body: &Form,
    around: &mut Vec<Ty>,
    table: &VarTable,
) -> Result<Role, Memory>
    ensures role { IfOk result (λ r. let rs = roles table.now (bind around.old.items []) (formulas_of ranges.now) in
        shown_role r ≡ comprehension_role rs (role table.now (bind (element_types rs)
        (bind around.old.items [])) body.now)) }
    ensures around { OnOk result (around.new.items ≡ around.old.items) }
{
    let Some(types) = range_types(alloc, ranges, around, table)? else {
        return Ok(Role::Nothing);
    };
    let body = role_inside(alloc, &types, body, around, table)?;
    if !is_predicate(&body) {
        return Ok(Role::Nothing);
    }
    Ok(Role::Value(Ty::set(alloc, tuple_type(alloc, &types)?)?))
}

// What a lambda stands for.
#[tactic(auto, using(crate::proofs::Operands::lambdas))]
#[cycle(role)]
fn lambda(
    alloc: Global,
    ranges: &[Form],
    body: &Form,
    image: &Form,
    around: &mut Vec<Ty>,
    table: &VarTable,
) -> Result<Role, Memory>
    ensures role { IfOk result (λ r. let rs = roles table.now (bind around.old.items []) (formulas_of ranges.now) in
        shown_role r ≡ lambda_role rs (role table.now (bind (element_types rs) (bind around.old.items [])) body.now)
        (role table.now (bind (element_types rs) (bind around.old.items [])) image.now)) }
    ensures around { OnOk result (around.new.items ≡ around.old.items) }
{
    let Some(types) = range_types(alloc, ranges, around, table)? else {
        return Ok(Role::Nothing);
    };
    let body = role_inside(alloc, &types, body, around, table)?;
    let image = role_inside(alloc, &types, image, around, table)?;
    if !is_predicate(&body) {
        return Ok(Role::Nothing);
    }
    let Some(image) = value(&image) else {
        return Ok(Role::Nothing);
    };
    let pair = Ty::pair(alloc, tuple_type(alloc, &types)?, image.copy(alloc)?)?;
    Ok(Role::Value(Ty::set(alloc, pair)?))
}

// The types of the elements of ranges, where they are at least one and each of them is a set value.
#[tactic(auto, using(bk_form::proofs::Sizes::parts_are_smaller, crate::proofs::Operands::ranges))]
#[cycle(role)]
fn range_types(
    alloc: Global,
    ranges: &[Form],
    around: &mut Vec<Ty>,
    table: &VarTable,
) -> Result<Option<Vec<Ty>>, Memory>
    ensures types { IfOk result (λ found. let rs = roles table.now (bind around.old.items [])
        (formulas_of ranges.now) in
        MatchOption found (are_ranges rs ≡ false) (λ ts. (are_ranges rs ≡ true) × (ts.items ≡ element_types rs))) }
    ensures around { OnOk result (around.new.items ≡ around.old.items) }
{
    if ranges.is_empty() {
        return Ok(None);
    }
    let mut types = Vec::new(alloc);
    if !push_elements(alloc, ranges, &mut types, around, table)? {
        return Ok(None);
    }
    Ok(Some(types))
}

// The types of the ranges' elements go after the others, where each range is a set value.
#[tactic(auto, using(bk_form::proofs::Sizes::parts_are_smaller, crate::proofs::Operands::ranges))]
#[cycle(role)]
fn push_elements(
    alloc: Global,
    ranges: &[Form],
    types: &mut Vec<Ty>,
    around: &mut Vec<Ty>,
    table: &VarTable,
) -> Result<bool, Memory>
    ensures sets { IfOk result (λ all. all ≡ each_gives_set (roles table.now (bind around.old.items [])
        (formulas_of ranges.now))) }
    ensures types { result ≡ Ok true → types.new.items ≡ types.old.items ++
        element_types (roles table.now (bind around.old.items []) (formulas_of ranges.now)) }
    ensures around { OnOk result (around.new.items ≡ around.old.items) }
{
    let [first, others @ ..] = ranges else {
        return Ok(true);
    };
    let range = role_under(alloc, first, around, table)?;
    let Some(ty) = elements(&range) else {
        return Ok(false);
    };
    types.push(ty.copy(alloc)?)?;
    push_elements(alloc, others, types, around, table)
}

// The type of several values as one: pairs to the left.
fn tuple_type(alloc: Global, types: &[Ty]) -> Result<Ty, Memory>
    ensures { IfOk result (λ t. t ≡ tuple_type types.now) }
{
    match types {
        [] => Ok(Ty::boolean()),
        [first, others @ ..] => tuple_type_onto(alloc, first.copy(alloc)?, others),
    }
}

// The type with these joined on its right one by one.
fn tuple_type_onto(alloc: Global, tuple: Ty, types: &[Ty]) -> Result<Ty, Memory>
    ensures { IfOk result (λ t. t ≡ tuple_type_onto tuple types.now) }
{
    match types {
        [] => Ok(tuple),
        [ty, others @ ..] => {
            let pair = Ty::pair(alloc, tuple, ty.copy(alloc)?)?;
            tuple_type_onto(alloc, pair, others)
        }
    }
}
