// What kind of type it is.

ghost use Rattle.std.specs.Prelude.{◌≡◌, ◌≢◌, MatchOption};
ghost use Rattle.bk_val.specs.ValueType.{ValueType, pair_type, set_type};
ghost use Rattle.bk_elab_terms.specs.Visible.{typing_of};
ghost use Rattle.bk_statics.specs.ClauseFaults as meant;

use crate::way::Typing;
use bk_form::{Ty, TyView};

// Whether a number has the type of a number, a truth value or an element.
pub fn is_flat(typing: Typing<'_>, variable: u32) -> bool
    ensures { result ≡ meant.is_flat (typing_of typing.entry.types.now variable) }
{
    match typing.types.get(variable as usize) {
        Some(Some(ty)) => !matches!(ty.view(), TyView::Pair(_, _) | TyView::Set(_)),
        _ => false,
    }
}

// The types of the first and second parts of a relation's pairs.
pub fn parts_of(ty: &Ty) -> Option<(&Ty, &Ty)>
    ensures { MatchOption result ((t u : ValueType) → ty.now ≢ set_type (pair_type t u))
        (λ p. ty.now ≡ set_type (pair_type p.0.now p.1.now)) }
{
    let TyView::Set(members) = ty.view() else {
        return None;
    };
    match members.view() {
        TyView::Pair(first, second) => Some((first, second)),
        _ => None,
    }
}
