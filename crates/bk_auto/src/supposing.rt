// Implications: the left side as a hypothesis, taken apart.

ghost use Rattle.std.specs.Prelude.{◌≡◌, ◌+◌, ◌++◌, ◌∷◌, Some, suc, length, IfOk, OnOk, slice_get};
ghost use Rattle.bk_seq.specs.Sequents.{sequent_of};
ghost use Rattle.bk_kernel.specs.declared.rule.Rule.TheVariants.{Imp};
ghost use Rattle.bk_auto.specs.Easy.{parts, supposed};
ghost use Rattle.bk_auto.specs.Found.{splits};

use crate::adding::{add, number_at};
use crate::views::sides;
use bk_form::{BinOp, Form};
use bk_io::Memory;
use bk_kernel::Rule;
use bk_seq::Sequent;
use std::alloc::Global;

/// The sequent for the right side of an implication under the left one and its parts, with the rules that lead to it.
pub(crate) fn suppose(
    alloc: Global,
    hyps: &[Form],
    left: &Form,
    right: &Form,
    rules: &mut Vec<Rule>,
) -> Result<Sequent, Memory>
    ensures sequent { IfOk result (λ s. sequent_of s ≡ (supposed hyps.now left.now, right.now)) }
    ensures rules { OnOk result (rules.new.items ≡
        rules.old.items ++ Imp ∷ splits (length hyps.now) (suc (length hyps.now)) left.now) }
{
    add(rules, Rule::Imp)?;
    let mut more = Form::copy_all(hyps, alloc)?;
    more.push(left.copy(alloc)?)?;
    take_apart(alloc, &mut more, hyps.len(), left, rules)?;
    Ok(Sequent {
        hyps: more,
        goal: right.copy(alloc)?,
    })
}

// Adds the parts of the hypothesis at an index to the hypotheses, and the rules that do so.
fn take_apart(
    alloc: Global,
    hyps: &mut Vec<Form>,
    index: usize,
    form: &Form,
    rules: &mut Vec<Rule>,
) -> Result<(), Memory>
    ensures hyps { OnOk result (hyps.new.items ≡ hyps.old.items ++ parts form.now) }
    ensures rules { OnOk result (rules.new.items ≡ rules.old.items ++ splits index (length hyps.old.items) form.now) }
{
    let Some((left, right)) = sides(BinOp::And, form) else {
        return Ok(());
    };
    let first = hyps.len();
    add(rules, Rule::Split(number_at(index)?))?;
    hyps.push(left.copy(alloc)?)?;
    hyps.push(right.copy(alloc)?)?;
    take_apart(alloc, hyps, first, left, rules)?;
    take_apart(alloc, hyps, first + 1, right, rules)
}
