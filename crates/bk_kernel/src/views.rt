//! How the rules look at formulas.

ghost use Rattle.std.specs.Prelude.{◌≡◌};
ghost use Rattle.bk_kernel.specs.Branches.{sides, operand, universal, existential};
ghost use Rattle.bk_kernel.specs.Held.{pair_in, form_in, binder_in};

use bk_form::{BinOp, Form, Ty, UnOp, View};

/// The sides of a formula of this operator.
pub(crate) fn sides(op: BinOp, form: &Form) -> Option<(&Form, &Form)>
    ensures { pair_in result ≡ sides op form.now }
{
    match form.view() {
        View::Bin(other, left, right) => (other == op).then_some((left, right)),
        _ => None,
    }
}

/// The operand of a formula of this operator.
pub(crate) fn operand(op: UnOp, form: &Form) -> Option<&Form>
    ensures { form_in result ≡ operand op form.now }
{
    match form.view() {
        View::Un(other, inner) => (other == op).then_some(inner),
        _ => None,
    }
}

/// The types of the variables and the body of a `!`.
pub(crate) fn universal(form: &Form) -> Option<(&[Ty], &Form)>
    ensures { binder_in result ≡ universal form.now }
{
    match form.view() {
        View::All(types, body) => Some((types, body)),
        _ => None,
    }
}

/// The types of the variables and the body of a `#`.
pub(crate) fn existential(form: &Form) -> Option<(&[Ty], &Form)>
    ensures { binder_in result ≡ existential form.now }
{
    match form.view() {
        View::Some(types, body) => Some((types, body)),
        _ => None,
    }
}
