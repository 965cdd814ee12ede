//! One step of proof.

ghost use Rattle.std.specs.Prelude.{◌≡◌, List, map, true, false, Some, None, Ok, Err, IfOk};
ghost use Rattle.bk_form.specs.Each.{Each};
ghost use Rattle.bk_bind.specs.declared.error.BindFault.TheVariants.{TooLarge};
ghost use Rattle.bk_seq.specs.Sequents.{Sequent as Claim, sequent_of, Types, IsWithin};
ghost use Rattle.bk_kernel.specs.declared.error.StepFault.TheVariants.{NoInstance};
ghost use Rattle.bk_kernel.specs.Rules.{branches, without_item, without_hypothesis, IsInstance};
ghost use Rattle.bk_kernel.specs.Code.{dropped};
ghost use Rattle.bk_kernel.specs.Held.{branch_of, held, list_in, IsGood, IsFine, IsExtension, HasNoFine, IsTooLarge};

use crate::algebra::by_polynomials;
use crate::binding::{fixed, instantiated, named_for, used};
use crate::branch::{Branch, push_all, sequents_with};
use crate::closing::{
    by_absurdity, by_arithmetic, by_decision, by_falsity, by_hypothesis, by_sameness, by_truth,
};
use crate::error::StepFault;
use crate::instances::Change;
use crate::listing::{as_pair, by_elements, by_induction, by_numbers};
use crate::logic::{
    both_goals, both_ways, by_applying, by_denial, by_refutation, by_supposing, by_way_of,
    either_side, in_both_cases, left_side, other_side, parts_of_hypothesis, right_side,
};
use crate::parts::is_within;
use crate::rewriting::rewritten;
use crate::roles::is_predicate;
use crate::rule::Rule;
use bk_bind::BindFault;
use bk_form::{Form, VarTable};
use bk_io::Memory;
use bk_seq::Sequent;
use std::alloc::Global;

/// The sequents that come of the sequent by the rule. `NoInstance` comes exactly where the rule does not fit, or makes a
/// formula that does not type or is too large.
pub fn step(
    alloc: Global,
    types: &VarTable,
    sequent: Sequent,
    rule: &Rule,
) -> Result<Vec<Sequent>, StepFault>
    requires types { Types types.now (sequent_of sequent) }
    requires within { IsWithin (sequent_of sequent) }
    ensures value { IfOk result
        (λ news. IsInstance types.now (sequent_of sequent) rule.now (map sequent_of news.items)) }
    ensures no_instance { result ≡ Err NoInstance → (news : List Claim) →
        IsInstance types.now (sequent_of sequent) rule.now news → ⊥ }
{
    let Some(number) = dropped(rule) else {
        return extending(alloc, types, sequent, rule);
    };
    dropping(alloc, &sequent, number)
}

// The number of the hypothesis that the rule drops; None of every other rule.
fn dropped(rule: &Rule) -> Option<u32>
    ensures { result ≡ dropped rule.now }
{
    match rule {
        Rule::Drop(number) => Some(*number),
        _ => None,
    }
}

// The sequent without a hypothesis.
fn dropping(alloc: Global, sequent: &Sequent, number: u32) -> Result<Vec<Sequent>, StepFault>
    ensures value { IfOk result (λ news.
        without_hypothesis (sequent_of sequent.now) number ≡ Some (map sequent_of news.items)) }
    ensures no_instance { result ≡ Err NoInstance → without_hypothesis (sequent_of sequent.now) number ≡ None }
{
    let Some(hyps) = without_item(alloc, &sequent.hyps, number)? else {
        return Err(StepFault::NoInstance);
    };
    let only = Sequent {
        hyps,
        goal: sequent.goal.copy(alloc)?,
    };
    Ok(Vec::from_array(alloc, [only])?)
}

// The formulas without the one of this number, from 1; None where there is none.
#[tactic(auto, using(crate::proofs::Steps::drops))]
fn without_item(alloc: Global, forms: &[Form], number: u32) -> Result<Option<Vec<Form>>, Memory>
    ensures { IfOk result (λ o. list_in o ≡ without_item number forms.now) }
{
    let Some(index) = number.checked_sub(1) else {
        return Ok(None);
    };
    let index = index as usize;
    if index >= forms.len() {
        return Ok(None);
    }
    let mut kept = Form::copy_all(&forms[..index], alloc)?;
    push_all(alloc, &mut kept, &forms[index + 1..])?;
    Ok(Some(kept))
}

// The sequents that come of what the rule adds.
fn extending(
    alloc: Global,
    types: &VarTable,
    sequent: Sequent,
    rule: &Rule,
) -> Result<Vec<Sequent>, StepFault>
    requires { IsWithin (sequent_of sequent) }
    ensures value { IfOk result (λ news. IsExtension types.now (sequent_of sequent)
        (branches types.now (sequent_of sequent) rule.now) (map sequent_of news.items)) }
    ensures no_instance { result ≡ Err NoInstance →
        HasNoFine types.now (branches types.now (sequent_of sequent) rule.now) }
{
    match added(alloc, types, &sequent, rule) {
        Ok(found) => extended(alloc, types, sequent, found),
        Err(BindFault::TooLarge) => Err(StepFault::NoInstance),
        Err(BindFault::Memory) => Err(StepFault::Memory),
    }
}

// The sequents of what a rule adds, where all that is new types and is within the limits.
#[tactic(auto, using(crate::proofs::Steps::extensions))]
fn extended(
    alloc: Global,
    types: &VarTable,
    sequent: Sequent,
    found: Option<Vec<Branch>>,
) -> Result<Vec<Sequent>, StepFault>
    ensures value { IfOk result (λ news. IsExtension types.now (sequent_of sequent)
        (held found) (map sequent_of news.items)) }
    ensures no_instance { result ≡ Err NoInstance → HasNoFine types.now (held found) }
{
    let Some(branches) = found else {
        return Err(StepFault::NoInstance);
    };
    if !are_fine(alloc, types, &branches)? {
        return Err(StepFault::NoInstance);
    }
    Ok(sequents_with(alloc, sequent, branches)?)
}

// What the rule adds to the sequent; None where it is no instance, and of the rule that drops a hypothesis.
fn added(
    alloc: Global,
    types: &VarTable,
    sequent: &Sequent,
    rule: &Rule,
) -> Result<Option<Vec<Branch>>, BindFault>
    requires { IsWithin (sequent_of sequent.now) }
    ensures value { IfOk result (λ o. held o ≡ branches types.now (sequent_of sequent.now) rule.now) }
    ensures too_large { result ≡ Err TooLarge → IsTooLarge (branches types.now (sequent_of sequent.now) rule.now) }
{
    match rule {
        Rule::Hyp(number) => Ok(by_hypothesis(alloc, types, sequent, *number)?),
        Rule::True => Ok(by_truth(alloc, types, sequent)?),
        Rule::Same => Ok(by_sameness(alloc, types, sequent)?),
        Rule::Eval(None) => Ok(by_decision(alloc, types, sequent)?),
        Rule::Eval(Some(place)) => rewritten(alloc, types, sequent, &Change::Deciding, place),
        Rule::False(number) => Ok(by_falsity(alloc, types, sequent, *number)?),
        Rule::Absurd(number, denial) => {
            Ok(by_absurdity(alloc, types, sequent, *number, *denial)?)
        }
        Rule::And => Ok(both_goals(alloc, types, sequent)?),
        Rule::Iff => both_ways(alloc, types, sequent),
        Rule::Imp => Ok(by_supposing(alloc, types, sequent)?),
        Rule::Not => Ok(by_refutation(alloc, types, sequent)?),
        Rule::Left => Ok(left_side(alloc, types, sequent)?),
        Rule::Right => Ok(right_side(alloc, types, sequent)?),
        Rule::Or => other_side(alloc, types, sequent),
        Rule::Contra => by_denial(alloc, types, sequent),
        Rule::Fix(names) => fixed(alloc, types, sequent, names),
        Rule::UseTerms(terms) => used(alloc, types, sequent, terms),
        Rule::Split(number) => Ok(parts_of_hypothesis(alloc, types, sequent, *number)?),
        Rule::Cases(number) => Ok(either_side(alloc, types, sequent, *number)?),
        Rule::Apply(number) => Ok(by_applying(alloc, types, sequent, *number)?),
        Rule::Inst(number, terms) => instantiated(alloc, types, sequent, *number, terms),
        Rule::OpenSome(number, names) => named_for(alloc, types, sequent, *number, names),
        Rule::Cut(form) => Ok(by_way_of(alloc, types, sequent, form)?),
        Rule::Case(form) => in_both_cases(alloc, types, sequent, form),
        Rule::Eq(number, place) => {
            rewritten(alloc, types, sequent, &Change::EqTo(*number), place)
        }
        Rule::Qe(number, place) => {
            rewritten(alloc, types, sequent, &Change::EqFrom(*number), place)
        }
        Rule::Law { law, picks, place } => {
            rewritten(
                alloc,
                types,
                sequent,
                &Change::LawTo(*law, picks.as_slice()),
                place,
            )
        }
        Rule::Wal { law, picks, place } => {
            rewritten(
                alloc,
                types,
                sequent,
                &Change::LawFrom(*law, picks.as_slice()),
                place,
            )
        }
        Rule::TypeOf(place) => rewritten(alloc, types, sequent, &Change::Typing, place),
        Rule::Neg(place) => rewritten(alloc, types, sequent, &Change::Negating, place),
        Rule::Mem(place) => rewritten(alloc, types, sequent, &Change::Belonging, place),
        Rule::Val(place) => rewritten(alloc, types, sequent, &Change::Applying, place),
        Rule::Ext(place) => rewritten(alloc, types, sequent, &Change::Extending, place),
        Rule::Sub(place) => rewritten(alloc, types, sequent, &Change::Including, place),
        Rule::Ex(place) => rewritten(alloc, types, sequent, &Change::Witnessing, place),
        Rule::Pair(term) => as_pair(alloc, types, sequent, term),
        Rule::Elems(term) => by_elements(alloc, types, sequent, term),
        Rule::Interval(number) => Ok(by_numbers(alloc, types, sequent, *number)?),
        Rule::Induct => by_induction(alloc, types, sequent),
        Rule::Poly => Ok(by_polynomials(alloc, types, sequent)?),
        Rule::Lin { facts, lines } => Ok(by_arithmetic(alloc, sequent, facts, lines)?),
        Rule::Drop(_) | Rule::Unread => Ok(None),
    }
}

// Whether all that is new in the branches types and is within the limits.
fn are_fine(alloc: Global, types: &VarTable, branches: &[Branch]) -> Result<bool, Memory>
    ensures fine { result ≡ Ok true → Each (IsFine types.now) (map branch_of branches.now) }
    ensures other { result ≡ Ok false → Each (IsFine types.now) (map branch_of branches.now) → ⊥ }
{
    let [first, others @ ..] = branches else {
        return Ok(true);
    };
    if !is_fine(alloc, types, first)? {
        return Ok(false);
    }
    are_fine(alloc, types, others)
}

fn is_fine(alloc: Global, types: &VarTable, branch: &Branch) -> Result<bool, Memory>
    ensures fine { result ≡ Ok true → IsFine types.now (branch_of branch.now) }
    ensures other { result ≡ Ok false → IsFine types.now (branch_of branch.now) → ⊥ }
{
    if !are_good(alloc, types, &branch.more)? {
        return Ok(false);
    }
    is_good(alloc, types, &branch.goal)
}

// Whether the formulas are predicates and within the limits.
fn are_good(alloc: Global, types: &VarTable, forms: &[Form]) -> Result<bool, Memory>
    ensures good { result ≡ Ok true → Each (IsGood types.now) forms.now }
    ensures other { result ≡ Ok false → Each (IsGood types.now) forms.now → ⊥ }
{
    let [first, others @ ..] = forms else {
        return Ok(true);
    };
    if !is_good(alloc, types, first)? {
        return Ok(false);
    }
    are_good(alloc, types, others)
}

fn is_good(alloc: Global, types: &VarTable, form: &Form) -> Result<bool, Memory>
    ensures good { result ≡ Ok true → IsGood types.now form.now }
    ensures other { result ≡ Ok false → IsGood types.now form.now → ⊥ }
{
    if !is_within(form) {
        return Ok(false);
    }
    is_predicate(alloc, types, form)
}
