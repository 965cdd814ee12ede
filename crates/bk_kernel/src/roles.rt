//! What formulas stand for.

ghost use Rattle.std.specs.Prelude.{◌≡◌, ◌≢◌, [], true, false, Ok, IfOk};
ghost use Rattle.bk_form.specs.Role as typed;
ghost use Rattle.bk_form.specs.Role.{role, predicate};
ghost use Rattle.bk_types.specs.Shown.{shown_role};
ghost use Rattle.bk_kernel.specs.Rewriting.{same_role};

use bk_form::{Form, Ty, VarTable};
use bk_io::Memory;
use bk_types::{Role, role_of};
use std::alloc::Global;

/// Whether two types are the same.
pub(crate) fn same_type(one: &Ty, other: &Ty) -> bool
    ensures { result ≡ typed.same_type one.now other.now }
{
    one.equal(other)
}

/// Whether two formulas stand for the same kind of thing, under no binder.
pub(crate) fn have_one_role(
    alloc: Global,
    types: &VarTable,
    one: &Form,
    other: &Form,
) -> Result<bool, Memory>
    ensures { IfOk result (λ b. b ≡ same_role (role types.now [] one.now) (role types.now [] other.now)) }
{
    let none = Vec::new(alloc);
    let first = role_of(alloc, one, &none, types)?;
    let second = role_of(alloc, other, &none, types)?;
    Ok(same_role(&first, &second))
}

fn same_role(one: &Role, other: &Role) -> bool
    ensures { result ≡ same_role (shown_role one.now) (shown_role other.now) }
{
    match (one, other) {
        (Role::Value(a), Role::Value(b)) => same_type(a, b),
        (Role::Domain(a), Role::Domain(b)) => same_type(a, b),
        (Role::Predicate, Role::Predicate) => true,
        _ => false,
    }
}

/// Whether the formula is a predicate, under no binder.
pub(crate) fn is_predicate(alloc: Global, types: &VarTable, form: &Form) -> Result<bool, Memory>
    ensures predicate { result ≡ Ok true → role types.now [] form.now ≡ predicate }
    ensures other { result ≡ Ok false → role types.now [] form.now ≢ predicate }
{
    let none = Vec::new(alloc);
    match role_of(alloc, form, &none, types)? {
        Role::Predicate => Ok(true),
        _ => Ok(false),
    }
}
