// How large a formula will be once formulas stand in place of its variables.

ghost use Rattle.std.specs.Prelude.{◌≡◌, ◌-◌, ◌^◌, min};
ghost use Rattle.bk_form.specs.Formula.{formula_size, formulas_size, formula_height, formulas_height, formulas_of};
ghost use Rattle.bk_form.specs.Replacement.{replaced, all_replaced, looked_up};

use crate::replacement::find;
use bk_form::{Form, View};

// How many nodes the formula will have.
#[tactic(auto, using(bk_form::proofs::Sizes::parts_are_smaller))]
#[cycle(nodes)]
pub(crate) fn nodes_after(form: &Form, pairs: &[(u32, Form)]) -> u64
    ensures { result ≡ min (formula_size (replaced (looked_up pairs.now) form.now)) (2 ^ 64 - 1) }
{
    match form.view() {
        View::Var(number) => match find(pairs, number) {
            Some(term) => term.size(),
            None => 1,
        },
        View::Un(_, operand) => nodes_after(operand, pairs).saturating_add(1),
        View::Bin(_, left, right) => nodes_after(left, pairs)
            .saturating_add(nodes_after(right, pairs))
            .saturating_add(1),
        View::All(_, body) | View::Some(_, body) => nodes_after(body, pairs).saturating_add(1),
        View::Compr(ranges, body) => nodes_after_all(ranges, pairs)
            .saturating_add(nodes_after(body, pairs))
            .saturating_add(1),
        View::Lam(ranges, body, value) => nodes_after_all(ranges, pairs)
            .saturating_add(nodes_after(body, pairs))
            .saturating_add(nodes_after(value, pairs))
            .saturating_add(1),
        _ => 1,
    }
}

// How many nodes the formulas will have together.
#[tactic(auto, using(bk_form::proofs::Sizes::parts_are_smaller))]
#[cycle(nodes)]
fn nodes_after_all(forms: &[Form], pairs: &[(u32, Form)]) -> u64
    ensures { result ≡ min (formulas_size (all_replaced (looked_up pairs.now) (formulas_of forms.now))) (2 ^ 64 - 1) }
{
    match forms {
        [] => 0,
        [first, others @ ..] => {
            nodes_after(first, pairs).saturating_add(nodes_after_all(others, pairs))
        }
    }
}

// How many nodes will lie on the formula's longest way down.
#[tactic(auto, using(bk_form::proofs::Sizes::parts_are_smaller))]
#[cycle(height)]
pub(crate) fn height_after(form: &Form, pairs: &[(u32, Form)]) -> u32
    ensures { result ≡ min (formula_height (replaced (looked_up pairs.now) form.now)) (2 ^ 32 - 1) }
{
    match form.view() {
        View::Var(number) => match find(pairs, number) {
            Some(term) => term.depth(),
            None => 1,
        },
        View::Un(_, operand) => height_after(operand, pairs).saturating_add(1),
        View::Bin(_, left, right) => height_after(left, pairs)
            .max(height_after(right, pairs))
            .saturating_add(1),
        View::All(_, body) | View::Some(_, body) => height_after(body, pairs).saturating_add(1),
        View::Compr(ranges, body) => height_after_all(ranges, pairs)
            .max(height_after(body, pairs))
            .saturating_add(1),
        View::Lam(ranges, body, value) => height_after_all(ranges, pairs)
            .max(height_after(body, pairs).max(height_after(value, pairs)))
            .saturating_add(1),
        _ => 1,
    }
}

// The height of the highest of the formulas, or 0.
#[tactic(auto, using(bk_form::proofs::Sizes::parts_are_smaller))]
#[cycle(height)]
fn height_after_all(forms: &[Form], pairs: &[(u32, Form)]) -> u32
    ensures { result ≡ min (formulas_height (all_replaced (looked_up pairs.now) (formulas_of forms.now))) (2 ^ 32 - 1) }
{
    match forms {
        [] => 0,
        [first, others @ ..] => height_after(first, pairs).max(height_after_all(others, pairs)),
    }
}
