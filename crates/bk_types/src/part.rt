// What an operand is taken for, by what it stands for.

ghost use Rattle.std.specs.Prelude.{◌≡◌, None, Some, MatchOption};
ghost use Rattle.std.specs.Option.{option_copied};
ghost use Rattle.bk_types.specs.Parts as taken;
ghost use Rattle.bk_types.specs.Shown.{shown_role};

use crate::role::Role;
use bk_form::{Ty, TyView};

// Whether it is a predicate.
pub(crate) fn is_predicate(operand: &Role) -> bool
    ensures { result ≡ taken.predicate_part (shown_role operand.now) }
{
    matches!(operand, Role::Predicate)
}

// Whether it is a whole number.
pub(crate) fn is_number(operand: &Role) -> bool
    ensures { result ≡ taken.number_part (shown_role operand.now) }
{
    match operand {
        Role::Value(ty) => matches!(ty.view(), TyView::Int),
        _ => false,
    }
}

// The type of a value.
pub(crate) fn value(operand: &Role) -> Option<&Ty>
    ensures { option_copied result ≡ taken.value_part (shown_role operand.now) }
{
    match operand {
        Role::Value(ty) => Some(ty),
        _ => None,
    }
}

// The type of the elements of a set value.
pub(crate) fn elements(operand: &Role) -> Option<&Ty>
    ensures { option_copied result ≡ taken.set_part (shown_role operand.now) }
{
    match operand {
        Role::Value(ty) => match ty.view() {
            TyView::Set(elements) => Some(elements),
            _ => None,
        },
        _ => None,
    }
}

// The types of the first and second parts of a relation.
pub(crate) fn parts(operand: &Role) -> Option<(&Ty, &Ty)>
    ensures { MatchOption result (taken.relation_part (shown_role operand.now) ≡ None)
        (λ p. taken.relation_part (shown_role operand.now) ≡ Some (p.0.now, p.1.now)) }
{
    match operand {
        Role::Value(ty) => match ty.view() {
            TyView::Set(elements) => match elements.view() {
                TyView::Pair(first, second) => Some((first, second)),
                _ => None,
            },
            _ => None,
        },
        _ => None,
    }
}

// The type that a set value or another domain ranges over.
pub(crate) fn ranged_over(operand: &Role) -> Option<&Ty>
    ensures { option_copied result ≡ taken.domain_part (shown_role operand.now) }
{
    match operand {
        Role::Value(ty) => match ty.view() {
            TyView::Set(elements) => Some(elements),
            _ => None,
        },
        Role::Domain(ty) => Some(ty),
        _ => None,
    }
}
