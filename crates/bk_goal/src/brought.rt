//! What a rule brought.

ghost use Rattle.std.specs.Prelude.{◌≡◌, ◌<◌, ◌^◌, length, map, IfOk};
ghost use Rattle.bk_seq.specs.Sequents.{sequent_of, Types, IsWithin};
ghost use Rattle.bk_goal.specs.Shown.{IsBrought, hypotheses_of_first, came_of_first};

use bk_form::VarTable;
use bk_io::Memory;
use bk_kernel::Rule;
use bk_replay::{Standing, open_after};
use bk_seq::Sequent;
use std::alloc::Global;

/// What the last rule brought: in the first `news` of the sequents that are open after it the hypotheses past the first `old` ones.
#[derive(Clone, Copy)]
pub struct Brought {
    pub old: usize,
    pub news: usize,
}

/// What the last of the rules brought that go so far.
pub(crate) fn last_brought(
    alloc: Global,
    table: &VarTable,
    sequent: Sequent,
    rules: &[Rule],
    standing: &Standing,
) -> Result<Brought, Memory>
    requires types { Types table.now (sequent_of sequent) }
    requires within { IsWithin (sequent_of sequent) }
    requires countable { length rules.now < 2 ^ 32 }
    ensures { IfOk result (λ b. IsBrought table.now rules.now (sequent_of sequent) standing.now.done (map sequent_of standing.now.left.items) b) }
{
    let count = (standing.done as usize).saturating_sub(1);
    let before = open_after(alloc, table, sequent, rules, count)?;
    Ok(brought_between(&before.left, &standing.left))
}

// What a rule brought before which these sequents were open, and after which those are.
#[tactic(auto, using(crate::proofs::Lines::length_held))]
fn brought_between(before: &[Sequent], left: &[Sequent]) -> Brought
    ensures old { result.old ≡ hypotheses_of_first (map sequent_of before.now) }
    ensures news { result.news ≡ came_of_first (map sequent_of before.now) (length (map sequent_of left.now)) }
{
    match before {
        [] => Brought { old: 0, news: 0 },
        [first, others @ ..] => Brought {
            old: first.hyps.len(),
            news: left.len().saturating_sub(others.len()),
        },
    }
}
