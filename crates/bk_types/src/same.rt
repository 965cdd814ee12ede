// Whether types are the same.

ghost use Rattle.std.specs.Prelude.{◌≡◌};
ghost use Rattle.bk_form.specs.Role.{same_type};

use bk_form::{Ty, TyView};

// Whether two types are the same.
pub(crate) fn same(left: &Ty, right: &Ty) -> bool
    ensures { result ≡ same_type left.now right.now }
{
    match (left.view(), right.view()) {
        (TyView::Int, TyView::Int) => true,
        (TyView::Bool, TyView::Bool) => true,
        (TyView::Enum(one), TyView::Enum(other)) => one == other,
        (TyView::Pair(a, b), TyView::Pair(c, d)) => same(a, c) && same(b, d),
        (TyView::Set(one), TyView::Set(other)) => same(one, other),
        _ => false,
    }
}
