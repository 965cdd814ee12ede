//! What one of the new sequents has besides the hypotheses that there were.

ghost use Rattle.std.specs.Prelude.{◌≡◌, ◌∷◌, ◌++◌, [], map, IfOk, OnOk};
ghost use Rattle.bk_form.specs.Formula.{bfalse};
ghost use Rattle.bk_seq.specs.Sequents.{sequent_of};
ghost use Rattle.bk_kernel.specs.Branches.{extended};
ghost use Rattle.bk_kernel.specs.Listing.{one_for_each};
ghost use Rattle.bk_kernel.specs.Held.{branch_of};

use bk_form::{Form, Part};
use bk_io::Memory;
use bk_seq::Sequent;
use std::alloc::Global;

/// More hypotheses, and a goal.
#[derive(Drop)]
pub struct Branch {
    pub more: Vec<Form>,
    pub goal: Form,
}

/// Another goal.
pub(crate) fn goal(alloc: Global, goal: &Form) -> Result<Branch, Memory>
    ensures { IfOk result (λ b. branch_of b ≡ ([], goal.now)) }
{
    Ok(Branch {
        more: Vec::new(alloc),
        goal: goal.copy(alloc)?,
    })
}

/// One more hypothesis, and a goal.
pub(crate) fn supposing(alloc: Global, hypothesis: Form, goal: &Form) -> Result<Branch, Memory>
    ensures { IfOk result (λ b. branch_of b ≡ (hypothesis ∷ [], goal.now)) }
{
    Ok(Branch {
        more: Vec::from_array(alloc, [hypothesis])?,
        goal: goal.copy(alloc)?,
    })
}

/// Two more hypotheses, and a goal.
pub(crate) fn supposing_both(
    alloc: Global,
    first: Form,
    second: Form,
    goal: &Form,
) -> Result<Branch, Memory>
    ensures { IfOk result (λ b. branch_of b ≡ (first ∷ second ∷ [], goal.now)) }
{
    Ok(Branch {
        more: Vec::from_array(alloc, [first, second])?,
        goal: goal.copy(alloc)?,
    })
}

/// One more hypothesis, which leads to what is never true.
pub(crate) fn refuting(alloc: Global, hypothesis: Form) -> Result<Branch, Memory>
    ensures { IfOk result (λ b. branch_of b ≡ (hypothesis ∷ [], bfalse)) }
{
    let never = Form::make(alloc, Part::False)?;
    supposing(alloc, hypothesis, &never)
}

/// One branch alone.
pub(crate) fn one(alloc: Global, only: Branch) -> Result<Vec<Branch>, Memory>
    ensures { IfOk result (λ bs. map branch_of bs.items ≡ branch_of only ∷ []) }
{
    Ok(Vec::from_array(alloc, [only])?)
}

/// Two branches.
pub(crate) fn two(alloc: Global, first: Branch, second: Branch) -> Result<Vec<Branch>, Memory>
    ensures { IfOk result (λ bs. map branch_of bs.items ≡ branch_of first ∷ branch_of second ∷ []) }
{
    Ok(Vec::from_array(alloc, [first, second])?)
}

/// One branch for each of the formulas, with it as one more hypothesis of the same goal.
pub(crate) fn one_for_each(
    alloc: Global,
    goal: &Form,
    forms: &[Form],
) -> Result<Vec<Branch>, Memory>
    ensures { IfOk result (λ bs. map branch_of bs.items ≡ one_for_each goal.now forms.now) }
{
    let mut branches = Vec::new(alloc);
    for form in forms {
        branches.push(supposing(alloc, form.copy(alloc)?, goal)?)?;
    }
    Ok(branches)
}

/// The sequents of branches of another one, in their order. The last takes its hypotheses over, so that a rule with one branch
/// copies none.
pub(crate) fn sequents_with(
    alloc: Global,
    sequent: Sequent,
    mut branches: Vec<Branch>,
) -> Result<Vec<Sequent>, Memory>
    ensures { IfOk result (λ news. map sequent_of news.items ≡
        map (λ b. extended (sequent_of sequent) (branch_of b)) branches.items) }
{
    let mut news = Vec::new(alloc);
    let Some(last) = branches.pop() else {
        return Ok(news);
    };
    for branch in branches {
        news.push(sequent_with(alloc, sequent.copy(alloc)?, branch)?)?;
    }
    news.push(sequent_with(alloc, sequent, last)?)?;
    Ok(news)
}

// The sequent of a branch of another one.
fn sequent_with(alloc: Global, sequent: Sequent, branch: Branch) -> Result<Sequent, Memory>
    ensures { IfOk result (λ s. sequent_of s ≡ extended (sequent_of sequent) (branch_of branch)) }
{
    let mut hyps = sequent.hyps;
    push_all(alloc, &mut hyps, &branch.more)?;
    Ok(Sequent {
        hyps,
        goal: branch.goal,
    })
}

/// The formulas go after the others.
pub(crate) fn push_all(alloc: Global, forms: &mut Vec<Form>, more: &[Form]) -> Result<(), Memory>
    ensures { OnOk result (forms.new.items ≡ forms.old.items ++ more.now) }
{
    for form in more {
        forms.push(form.copy(alloc)?)?;
    }
    Ok(())
}
