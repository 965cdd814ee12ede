//! Lists of rules, one after another.

ghost use Rattle.std.specs.Prelude.{◌≡◌, ◌<◌, ◌^◌, ◌++◌, ◌⊎◌, length, map, Ok, IfOk, IsErr, OnOk};
ghost use Rattle.bk_seq.specs.Sequents.{sequent_of, Types, IsWithin};
ghost use Rattle.bk_kernel.specs.Derivations.{Derives, IsVerdict};
ghost use Rattle.bk_kernel.specs.declared.replaying.Verdict.TheVariants.{Closed};
ghost use Rattle.bk_kernel.specs.Standing.{in_order, at_end};

use crate::error::StepFault;
use crate::rule::Rule;
use crate::stepping::step;
use bk_form::VarTable;
use bk_io::Memory;
use bk_seq::Sequent;
use std::alloc::Global;

/// What a list of rules does to a sequent. Rules number from 1.
#[derive(Clone, Copy, PartialEq, Eq, Debug)]
pub enum Verdict {
    /// All rules are steps, and nothing is left to prove.
    Closed,
    /// The rule of this number is no step.
    BadStep(u32),
    /// All rules are steps, and this many sequents are left; past 32 bits it is their greatest number.
    Open(u32),
    /// Nothing is left to prove before the rule of this number.
    Extra(u32),
}

/// What the rules do to the sequent, each on the first sequent that is open, whose results stand in its place.
#[tactic(auto, using(crate::proofs::Verdicts::closed_where_derived))]
pub fn replay(
    alloc: Global,
    types: &VarTable,
    sequent: Sequent,
    rules: &[Rule],
) -> Result<Verdict, Memory>
    requires types { Types types.now (sequent_of sequent) }
    requires within { IsWithin (sequent_of sequent) }
    requires countable { length rules.now < 2 ^ 32 }
    ensures verdict { IfOk result (IsVerdict types.now rules.now (sequent_of sequent)) }
    ensures derived { Derives types.now rules.now (sequent_of sequent) → (result ≡ Ok Closed) ⊎ IsErr result }
{
    replay_in_order(alloc, types, sequent, rules)
}

fn replay_in_order(
    alloc: Global,
    types: &VarTable,
    sequent: Sequent,
    rules: &[Rule],
) -> Result<Verdict, Memory>
    requires types { Types types.now (sequent_of sequent) }
    requires within { IsWithin (sequent_of sequent) }
    requires countable { length rules.now < 2 ^ 32 }
    ensures { IfOk result (IsVerdict types.now rules.now (sequent_of sequent)) }
{
    // the first open sequent stands last
    let mut open = Vec::new(alloc);
    open.push(sequent)?;
    for (index, rule) in rules.iter().enumerate() {
        let Some(first) = open.pop() else {
            return Ok(Verdict::Extra(index as u32 + 1));
        };
        match step(alloc, types, first, rule) {
            Ok(news) => put_first(&mut open, news)?,
            Err(StepFault::NoInstance) => return Ok(Verdict::BadStep(index as u32 + 1)),
            Err(StepFault::Memory) => return Err(Memory),
        }
    }
    Ok(verdict_at_end(&open))
}

// Puts the new sequents before the open ones, of which the first stands last.
fn put_first(open: &mut Vec<Sequent>, mut news: Vec<Sequent>) -> Result<(), Memory>
    ensures { OnOk result (in_order open.new.items ≡ map sequent_of news.items ++ in_order open.old.items) }
{
    while let Some(last) = news.pop() {
        open.push(last)?;
    }
    Ok(())
}

// The verdict where all rules are steps.
fn verdict_at_end(open: &[Sequent]) -> Verdict
    ensures { result ≡ at_end (length open.now) }
{
    if open.is_empty() {
        return Verdict::Closed;
    }
    Verdict::Open(u32::try_from(open.len()).unwrap_or(u32::MAX))
}
