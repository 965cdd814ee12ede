//! The open sequents after rules.

ghost use Rattle.std.specs.Prelude.{◌≡◌, ◌<◌, ◌≤◌, ◌^◌, ◌+◌, ◌++◌, ◌∷◌, length, map, take, IfOk, OnOk};
ghost use Rattle.bk_seq.specs.Sequents.{sequent_of, Types, IsWithin};
ghost use Rattle.bk_kernel.specs.Standing as kernel;
ghost use Rattle.bk_kernel.specs.Standing.{in_order};
ghost use Rattle.bk_replay.specs.Standing as meant;
ghost use Rattle.bk_replay.specs.Standing.{AreOpenAfter, IsFurthest, verdict_at};

use bk_form::VarTable;
use bk_io::Memory;
use bk_kernel::{Rule, StepFault, Verdict, step};
use bk_seq::Sequent;
use std::alloc::Global;

/// How far rules go: the first `done` of them are steps one after another, and these sequents are open after them, the first one
/// first.
#[derive(Drop)]
pub struct Standing {
    pub done: u32,
    pub left: Vec<Sequent>,
}

/// How far the rules go on the sequent: as many as are steps, each on the first sequent that is open, whose results stand in its place.
pub fn furthest(
    alloc: Global,
    types: &VarTable,
    sequent: Sequent,
    rules: &[Rule],
) -> Result<Standing, Memory>
    requires types { Types types.now (sequent_of sequent) }
    requires within { IsWithin (sequent_of sequent) }
    requires countable { length rules.now < 2 ^ 32 }
    ensures { IfOk result (λ st.
        IsFurthest types.now rules.now (sequent_of sequent) st.done (map sequent_of st.left.items)) }
{
    // the first open sequent stands last
    let mut open = Vec::new(alloc);
    open.push(sequent)?;
    for (index, rule) in rules.iter().enumerate() {
        let Some(first) = open.pop() else {
            let closed = reversed(index as u32, open);
            return Ok(closed);
        };
        let before = again(alloc, &first)?;
        match step(alloc, types, first, rule) {
            Ok(news) => put_first(&mut open, news)?,
            Err(StepFault::NoInstance) => return stopped(index as u32, open, before),
            Err(StepFault::Memory) => return Err(Memory),
        }
    }
    let whole = reversed(rules.len() as u32, open);
    Ok(whole)
}

/// What is open after the first rules, where so many are steps; else after as many as are.
pub fn open_after(
    alloc: Global,
    types: &VarTable,
    sequent: Sequent,
    rules: &[Rule],
    count: usize,
) -> Result<Standing, Memory>
    requires types { Types types.now (sequent_of sequent) }
    requires within { IsWithin (sequent_of sequent) }
    requires countable { length rules.now < 2 ^ 32 }
    ensures after { IfOk result (λ st.
        AreOpenAfter types.now rules.now (sequent_of sequent) st.done (map sequent_of st.left.items)) }
    ensures most { IfOk result (λ st. st.done ≤ count) }
    ensures furthest { IfOk result (λ st.
        IsFurthest types.now (take count rules.now) (sequent_of sequent) st.done (map sequent_of st.left.items)) }
{
    furthest(alloc, types, sequent, front_of(rules, count))
}

// The first so many rules.
fn front_of(rules: &[Rule], count: usize) -> &[Rule]
    ensures front { result.now ≡ take count rules.now }
    ensures most { length result.now ≤ length rules.now }
{
    if count < rules.len() {
        &rules[..count]
    } else {
        rules
    }
}

/// What is said of so many rules that go so far: the verdict of the kernel.
pub fn verdict_of(standing: &Standing, rules: usize) -> Verdict
    requires { rules < 2 ^ 32 }
    ensures { result ≡ verdict_at rules standing.now.done (length standing.now.left.items) }
{
    if (standing.done as usize) < rules {
        at_rule(standing.done, &standing.left)
    } else {
        at_end(&standing.left)
    }
}

// The verdict where the rule after these is no step, or nothing is open before it.
fn at_rule(done: u32, open: &[Sequent]) -> Verdict
    requires { done + 1 < 2 ^ 32 }
    ensures { result ≡ meant.at_rule done (length open.now) }
{
    if open.is_empty() {
        return Verdict::Extra(done + 1);
    }
    Verdict::BadStep(done + 1)
}

// The verdict where all rules are steps.
fn at_end(open: &[Sequent]) -> Verdict
    ensures { result ≡ kernel.at_end (length open.now) }
{
    if open.is_empty() {
        return Verdict::Closed;
    }
    Verdict::Open(u32::try_from(open.len()).unwrap_or(u32::MAX))
}

/// Puts the new sequents before the open ones, of which the first stands last.
pub fn put_first(open: &mut Vec<Sequent>, mut news: Vec<Sequent>) -> Result<(), Memory>
    ensures { OnOk result (in_order open.new.items ≡ map sequent_of news.items ++ in_order open.old.items) }
{
    while let Some(last) = news.pop() {
        open.push(last)?;
    }
    Ok(())
}

// The same sequent again.
fn again(alloc: Global, sequent: &Sequent) -> Result<Sequent, Memory>
    ensures { IfOk result (λ s. sequent_of s ≡ sequent_of sequent.now) }
{
    sequent.copy(alloc)
}

// The standing before a rule that is no step on this sequent, the first of those that are open; the others stand in `open`, the first
// one last.
fn stopped(done: u32, mut open: Vec<Sequent>, first: Sequent) -> Result<Standing, Memory>
    ensures done { IfOk result (λ st. st.done ≡ done) }
    ensures left { IfOk result (λ st. map sequent_of st.left.items ≡ sequent_of first ∷ in_order open.items) }
{
    open.push(first)?;
    Ok(reversed(done, open))
}

// The standing with these sequents, of which the first stands last.
#[tactic(auto, using(crate::proofs::Reached::in_order_reversed))]
fn reversed(done: u32, mut open: Vec<Sequent>) -> Standing
    ensures done { result.done ≡ done }
    ensures left { map sequent_of result.left.items ≡ in_order open.items }
{
    open.reverse();
    Standing { done, left: open }
}
