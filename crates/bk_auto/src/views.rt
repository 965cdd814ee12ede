// Formulas seen by their operators.

ghost use Rattle.std.specs.Prelude.{◌≡◌};
ghost use Rattle.bk_kernel.specs.Branches.{sides};
ghost use Rattle.bk_kernel.specs.Held.{pair_in};

use bk_form::{BinOp, Form, View};

/// The sides of a formula of this operator.
pub(crate) fn sides(op: BinOp, form: &Form) -> Option<(&Form, &Form)>
    ensures { pair_in result ≡ sides op form.now }
{
    match form.view() {
        View::Bin(other, left, right) => (other == op).then_some((left, right)),
        _ => None,
    }
}
