//! Whether a variable stands in a formula.

ghost use Rattle.std.specs.Prelude.{◌≡◌};
ghost use Rattle.bk_form.specs.Formula.{formulas_of};
ghost use Rattle.bk_form.specs.Replacement.{occurs, any_occurs};

use bk_form::{Form, View};

/// Whether the variable stands in the formula. Takes no memory.
#[tactic(auto, using(bk_form::proofs::Sizes::parts_are_equal))]
#[cycle(occurs)]
pub fn free_in(form: &Form, variable: u32) -> bool
    ensures { result ≡ occurs variable form.now }
{
    match form.view() {
        View::Var(number) => number == variable,
        View::Un(_, operand) => free_in(operand, variable),
        View::Bin(_, left, right) => free_in(left, variable) || free_in(right, variable),
        View::All(_, body) | View::Some(_, body) => free_in(body, variable),
        View::Compr(ranges, body) => free_in_any(ranges, variable) || free_in(body, variable),
        View::Lam(ranges, body, value) => {
            free_in_any(ranges, variable) || free_in(body, variable) || free_in(value, variable)
        }
        _ => false,
    }
}

// Whether the variable stands in one of the formulas.
#[tactic(auto, using(bk_form::proofs::Sizes::parts_are_equal))]
#[cycle(occurs)]
fn free_in_any(forms: &[Form], variable: u32) -> bool
    ensures { result ≡ any_occurs variable (formulas_of forms.now) }
{
    for form in forms {
        if free_in(form, variable) {
            return true;
        }
    }
    false
}
