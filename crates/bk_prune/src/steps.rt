//! What each rule of a proof makes.

ghost use Rattle.std.specs.Prelude.{◌≡◌, ◌++◌, map, OnOk};
ghost use Rattle.bk_form.specs.Each.{Each};
ghost use Rattle.bk_seq.specs.Sequents.{sequent_of};
ghost use Rattle.bk_kernel.specs.Standing.{in_order};
ghost use Rattle.bk_status.specs.Replayable.{IsReplayable};

use crate::work::again;
use bk_form::VarTable;
use bk_io::Memory;
use bk_kernel::{Rule, StepFault};
use bk_replay::put_first;
use bk_seq::Sequent;
use std::alloc::Global;

/// What a rule makes of the sequent that it works on.
#[derive(Drop)]
pub(crate) struct Step {
    /// How many hypotheses that has.
    pub(crate) hyps: usize,
    /// The sequents that come of it.
    pub(crate) parts: Vec<Part>,
}

/// A sequent that comes of a rule.
#[derive(Clone, Copy)]
pub(crate) struct Part {
    /// How many hypotheses it has.
    pub(crate) hyps: usize,
    /// Whether its goal is the one that there was.
    pub(crate) keeps_goal: bool,
}

/// What each of the rules makes, where all are steps and nothing is left; None otherwise.
pub(crate) fn steps(
    alloc: Global,
    types: &VarTable,
    sequent: Sequent,
    rules: &[Rule],
) -> Result<Option<Vec<Step>>, Memory>
    requires { IsReplayable types.now (sequent_of sequent) }
{
    let mut steps = Vec::new(alloc);
    // the first open sequent stands last
    let mut open = Vec::new(alloc);
    open.push(sequent)?;
    for rule in rules {
        let Some(made) = advanced(alloc, types, &mut open, rule)? else {
            return Ok(None);
        };
        steps.push(made)?;
    }
    if open.is_empty() {
        return Ok(Some(steps));
    }
    Ok(None)
}

// What a rule makes of the first open sequent, which stands last: what comes of it stands in its place. None where it is no step.
fn advanced(
    alloc: Global,
    types: &VarTable,
    open: &mut Vec<Sequent>,
    rule: &Rule,
) -> Result<Option<Step>, Memory>
    requires { Each (IsReplayable types.now) (in_order open.old.items) }
    ensures { OnOk result (Each (IsReplayable types.now) (in_order open.new.items)) }
{
    match open.pop() {
        Some(first) => replaced(alloc, types, open, first, rule),
        None => Ok(None),
    }
}

// What a rule makes of a sequent, before the other open ones.
fn replaced(
    alloc: Global,
    types: &VarTable,
    open: &mut Vec<Sequent>,
    first: Sequent,
    rule: &Rule,
) -> Result<Option<Step>, Memory>
    requires first { IsReplayable types.now (sequent_of first) }
    requires others { Each (IsReplayable types.now) (in_order open.old.items) }
    ensures { OnOk result (Each (IsReplayable types.now) (in_order open.new.items)) }
{
    let before = again(alloc, &first)?;
    match bk_kernel::step(alloc, types, first, rule) {
        Ok(news) => put_news(alloc, open, &before, news),
        Err(StepFault::NoInstance) => Ok(None),
        Err(StepFault::Memory) => Err(Memory),
    }
}

// Puts what comes of a sequent before the other open ones.
fn put_news(
    alloc: Global,
    open: &mut Vec<Sequent>,
    before: &Sequent,
    news: Vec<Sequent>,
) -> Result<Option<Step>, Memory>
    ensures { OnOk result (in_order open.new.items ≡ map sequent_of news.items ++ in_order open.old.items) }
{
    let step = made(alloc, before, &news)?;
    put_first(open, news)?;
    Ok(Some(step))
}

// What a rule makes of this sequent, of which these come.
fn made(alloc: Global, sequent: &Sequent, news: &[Sequent]) -> Result<Step, Memory> {
    let mut parts = Vec::new(alloc);
    for new in news {
        parts.push(Part {
            hyps: new.hyps.len(),
            keeps_goal: new.goal.equal(&sequent.goal),
        })?;
    }
    Ok(Step {
        hyps: sequent.hyps.len(),
        parts,
    })
}
