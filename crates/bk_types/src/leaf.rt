// What formulas without parts stand for.

ghost use Rattle.std.specs.Prelude.{◌≡◌, IfOk, [], length};
ghost use Rattle.std.specs.Option.{option_copied};
ghost use Rattle.std.specs.List.{slice_get};
ghost use Rattle.bk_form.specs.Role as typed;
ghost use Rattle.bk_form.specs.Table.{variable_type, lists_type, is_among_sets};
ghost use Rattle.bk_types.specs.Shown.{shown_role};

use crate::role::Role;
use bk_form::{Domain, Ty, TyView, VarTable};
use bk_io::Memory;
use std::alloc::Global;

// A variable gives its type.
pub(crate) fn variable_role(alloc: Global, variable: u32, table: &VarTable) -> Result<Role, Memory>
    ensures { IfOk result (λ r. shown_role r ≡ typed.given_by (variable_type table.now variable)) }
{
    match table.ty(variable) {
        Some(ty) => Ok(Role::Value(ty.copy(alloc)?)),
        None => Ok(Role::Nothing),
    }
}

// A bound number gives its type, where the table lists its sets; the types of the innermost bound numbers stand last.
pub(crate) fn bound_role(
    alloc: Global,
    number: u32,
    around: &[Ty],
    table: &VarTable,
) -> Result<Role, Memory>
    ensures { IfOk result (λ r. shown_role r ≡ typed.bound_role table.now (slice_get
        (typed.bind around.now []) number)) }
{
    match from_innermost(around, number) {
        Some(ty) if lists(ty, table) => Ok(Role::Value(ty.copy(alloc)?)),
        _ => Ok(Role::Nothing),
    }
}

// The type of a bound number, counted from the last type.
#[tactic(auto, using(crate::proofs::Bounds::bounds))]
fn from_innermost(around: &[Ty], number: u32) -> Option<&Ty>
    ensures { option_copied result ≡ slice_get (typed.bind around.now []) number }
{
    let place = around.len().checked_sub(number as usize + 1)?;
    around.get(place)
}

// An element gives its set, where its number is below the set's size.
pub(crate) fn element_role(set: u32, index: u32, table: &VarTable) -> Role
    ensures { shown_role result ≡ typed.element_role table.now set index }
{
    if index < table.size(set) {
        Role::Value(Ty::enumerated(set))
    } else {
        Role::Nothing
    }
}

// An empty set gives its type, where that is a type of sets whose sets the table lists.
pub(crate) fn empty_role(alloc: Global, ty: &Ty, table: &VarTable) -> Result<Role, Memory>
    ensures { IfOk result (λ r. shown_role r ≡ typed.empty_role table.now ty.now) }
{
    match ty.view() {
        TyView::Set(elements) if lists(elements, table) => Ok(Role::Value(ty.copy(alloc)?)),
        _ => Ok(Role::Nothing),
    }
}

// BOOL and the listed sets are values; the other sets that have names are domains.
pub(crate) fn named_role(alloc: Global, domain: Domain, table: &VarTable) -> Result<Role, Memory>
    ensures { IfOk result (λ r. shown_role r ≡ typed.named_role table.now domain) }
{
    match domain {
        Domain::Bool => Ok(Role::Value(Ty::set(alloc, Ty::boolean())?)),
        Domain::Enum(set) => {
            if set as usize >= table.sets() {
                return Ok(Role::Nothing);
            }
            Ok(Role::Value(Ty::set(alloc, Ty::enumerated(set))?))
        }
        _ => Ok(Role::Domain(Ty::int())),
    }
}

// Whether the table lists each enumerated set of the type.
pub(crate) fn lists(ty: &Ty, table: &VarTable) -> bool
    ensures { result ≡ lists_type table.now ty.now }
{
    is_among(ty, table.sets())
}

// Whether each enumerated set of the type is one of the first.
fn is_among(ty: &Ty, count: usize) -> bool
    ensures { result ≡ is_among_sets count ty.now }
{
    match ty.view() {
        TyView::Int | TyView::Bool => true,
        TyView::Enum(set) => (set as usize) < count,
        TyView::Pair(left, right) => is_among(left, count) && is_among(right, count),
        TyView::Set(elements) => is_among(elements, count),
    }
}

// Whether the table lists each enumerated set of each of the types.
pub(crate) fn lists_all(types: &[Ty], table: &VarTable) -> bool
    ensures { result ≡ typed.all_listed table.now types.now }
{
    match types {
        [] => true,
        [first, others @ ..] => lists(first, table) && lists_all(others, table),
    }
}
