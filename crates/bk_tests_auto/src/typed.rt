// What is found for sequents that are known to type.

ghost use Rattle.std.specs.Prelude.{◌≡◌, [], true, Ok, IsTrue};
ghost use Rattle.bk_form.specs.Each.{Each};
ghost use Rattle.bk_form.specs.Predicates.{IsPredicate};
ghost use Rattle.bk_form.specs.Role.{role, predicate};
ghost use Rattle.bk_bind.specs.Limits.{IsWithinLimits};
ghost use Rattle.bk_seq.specs.Sequents.{sequent_of, Types, IsWithin};

use bk_auto::find;
use bk_form::{Form, VarTable};
use bk_io::Memory;
use bk_kernel::{Rule, Verdict, replay};
use bk_limits::{GREATEST_HEIGHT, MOST_NODES};
use bk_seq::Sequent;
use bk_types::{Role, role_of};
use std::alloc::Global;

// The rules that are found, where the sequent is known to type.
pub(crate) fn rules(
    alloc: Global,
    types: &mut VarTable,
    sequent: &Sequent,
) -> Result<Option<Vec<Rule>>, Memory> {
    if !types_over(alloc, types, sequent)? {
        return Err(Memory);
    }
    find(alloc, types, sequent)
}

// What the rules do to the sequent, where it is known to type.
pub(crate) fn verdict(
    alloc: Global,
    types: &VarTable,
    sequent: Sequent,
    rules: &[Rule],
) -> Result<Verdict, Memory> {
    if rules.len() > 1000 || !are_within(&sequent.hyps) || !is_within(&sequent.goal) {
        return Err(Memory);
    }
    if !types_over(alloc, types, &sequent)? {
        return Err(Memory);
    }
    replay(alloc, types, sequent, rules)
}

fn types_over(alloc: Global, types: &VarTable, sequent: &Sequent) -> Result<bool, Memory>
    ensures { result ≡ Ok true → Types types.now (sequent_of sequent.now) }
{
    if !are_predicates(alloc, types, &sequent.hyps)? {
        return Ok(false);
    }
    is_predicate(alloc, types, &sequent.goal)
}

fn are_predicates(alloc: Global, types: &VarTable, forms: &[Form]) -> Result<bool, Memory>
    ensures { result ≡ Ok true → Each (IsPredicate types.now) forms.now }
{
    let [first, others @ ..] = forms else {
        return Ok(true);
    };
    if !is_predicate(alloc, types, first)? {
        return Ok(false);
    }
    are_predicates(alloc, types, others)
}

fn is_predicate(alloc: Global, types: &VarTable, form: &Form) -> Result<bool, Memory>
    ensures { result ≡ Ok true → role types.now [] form.now ≡ predicate }
{
    let none = Vec::new(alloc);
    match role_of(alloc, form, &none, types)? {
        Role::Predicate => Ok(true),
        _ => Ok(false),
    }
}

fn are_within(forms: &[Form]) -> bool
    ensures { IsTrue result → Each IsWithinLimits forms.now }
{
    match forms {
        [] => true,
        [first, others @ ..] => is_within(first) && are_within(others),
    }
}

fn is_within(form: &Form) -> bool
    ensures { IsTrue result → IsWithinLimits form.now }
{
    form.size() <= MOST_NODES && form.depth() <= GREATEST_HEIGHT
}
