//! Scripts that need each of their rules.

ghost use Rattle.std.specs.Prelude.{◌≡◌, ◌↔◌, ◌<◌, ◌^◌, ℕ, true, length, All, IfOk, OnOk, IfSome, IfNone};
ghost use Rattle.std.specs.List.{remove};
ghost use Rattle.bk_seq.specs.Sequents.{sequent_of};
ghost use Rattle.bk_kernel.specs.Derivations.{Derives};
ghost use Rattle.bk_p_proof.specs.Files.{IsShort};
ghost use Rattle.bk_status.specs.Replayable.{IsReplayable};
ghost use Rattle.bk_prune.specs.Pruned.{IsReady, ProvesWithout, NeedsEachRule, IsFinished, CountsLeft};

use crate::states::scripts_of;
use crate::work::{Proved, Work, closes, proves, work_of};
use bk_form::VarTable;
use bk_io::Memory;
use bk_kernel::Rule;
use bk_p_proof::Scripts;
use bk_p_proof::laws::scripts_are_one;
use bk_raw::RawScript;
use bk_seq::Sequent;
use std::alloc::Global;

/// How many scripts of a text do not prove, or have a rule that can be left out; 0 of a text that is no proof file.
pub(crate) fn left_count(proved: Proved<'_>, text: &[u8]) -> Result<usize, Memory>
    requires { IsReady proved.dev.now proved.table.now proved.list.now }
    ensures { IfOk result (λ left. CountsLeft proved.entry.dev.now proved.entry.list.now text.now left) }
{
    scripts_are_one();
    match scripts_of(proved.alloc, text)? {
        Some(read) => left_among(proved, &read),
        None => Ok(0),
    }
}

fn left_among(proved: Proved<'_>, read: &Scripts) -> Result<usize, Memory>
    requires { IsReady proved.dev.now proved.table.now proved.list.now }
    ensures { IfOk result (λ left. (left ≡ 0) ↔ All (IsFinished proved.entry.dev.now proved.entry.list.now) read.now) }
{
    read.facts();
    let scripts = read.all();
    unfinished_count(proved, scripts)
}

// How many scripts do not prove, or have a rule that can be left out.
fn unfinished_count(proved: Proved<'_>, scripts: &[RawScript]) -> Result<usize, Memory>
    requires ready { IsReady proved.dev.now proved.table.now proved.list.now }
    requires short { All IsShort scripts.now }
    ensures { IfOk result (λ count. (count ≡ 0) ↔ All (IsFinished proved.entry.dev.now proved.entry.list.now) scripts.now) }
{
    let mut count = 0usize;
    for script in scripts {
        count = count_with(count, is_finished(proved, script)?);
    }
    Ok(count)
}

// A count, and one more where something is not finished.
fn count_with(count: usize, is_finished: bool) -> usize
    ensures none { result ≡ 0 → (count ≡ 0) × (is_finished ≡ true) }
    ensures all { count ≡ 0 → is_finished ≡ true → result ≡ 0 }
{
    if is_finished {
        count
    } else {
        count.saturating_add(1)
    }
}

// Whether a script proves its obligation, and needs each of its rules for that.
fn is_finished(proved: Proved<'_>, script: &RawScript) -> Result<bool, Memory>
    requires ready { IsReady proved.dev.now proved.table.now proved.list.now }
    requires short { IsShort script.now }
    ensures right { IfOk result (λ is. is ≡ true → IsFinished proved.entry.dev.now proved.entry.list.now script.now) }
    ensures whole { IfOk result (λ is. IsFinished proved.entry.dev.now proved.entry.list.now script.now → is ≡ true) }
{
    let does = proves(proved, script)?;
    if does {
        return needs_each(proved, script);
    }
    Ok(false)
}

fn needs_each(proved: Proved<'_>, script: &RawScript) -> Result<bool, Memory>
    requires ready { IsReady proved.dev.now proved.table.now proved.list.now }
    requires short { IsShort script.now }
    ensures right { IfOk result (λ needs. needs ≡ true → NeedsEachRule proved.entry.dev.now proved.entry.list.now script.now) }
    ensures whole { IfOk result (λ needs. NeedsEachRule proved.entry.dev.now proved.entry.list.now script.now → needs ≡ true) }
{
    let spare = spare_rule(proved, script)?;
    Ok(spare.is_none())
}

/// How many rules stand before the first one that can be left out: the others derive what the script is for. None where it needs each.
pub(crate) fn spare_rule(proved: Proved<'_>, script: &RawScript) -> Result<Option<usize>, Memory>
    requires ready { IsReady proved.dev.now proved.table.now proved.list.now }
    requires short { IsShort script.now }
    ensures some { IfOk result (λ found. IfSome found (ProvesWithout proved.entry.dev.now proved.entry.list.now script.now)) }
    ensures none { IfOk result (λ found. IfNone found (NeedsEachRule proved.entry.dev.now proved.entry.list.now script.now)) }
{
    let Some(work) = work_of(proved, script)? else {
        return Ok(None);
    };
    let Work {
        mut rules,
        table,
        sequent,
    } = work;
    spare_among(proved.alloc, &table, &sequent, &mut rules)
}

// How many rules stand before the first one without which the others derive the sequent.
fn spare_among(
    alloc: Global,
    table: &VarTable,
    sequent: &Sequent,
    rules: &mut Vec<Rule>,
) -> Result<Option<usize>, Memory>
    requires replayable { IsReplayable table.now (sequent_of sequent.now) }
    requires countable { length rules.old.items < 2 ^ 32 }
    ensures some { IfOk result (λ found. IfSome found (λ k.
        (k < length rules.old.items) × Derives table.now (remove rules.old.items k) (sequent_of sequent.now))) }
    ensures none { IfOk result (λ found. IfNone found ((k : ℕ) →
        k < length rules.old.items → Derives table.now (remove rules.old.items k) (sequent_of sequent.now) → ⊥)) }
{
    let count = total(rules.as_slice());
    for index in 0..count {
        let does = close_without(alloc, table, sequent, rules, index)?;
        if does {
            return Ok(Some(index));
        }
    }
    Ok(None)
}

fn total(rules: &[Rule]) -> usize
    ensures { result ≡ length rules.now }
{
    rules.len()
}

// Whether rules derive a sequent without the one after so many. They are the same again.
fn close_without(
    alloc: Global,
    table: &VarTable,
    sequent: &Sequent,
    rules: &mut Vec<Rule>,
    index: usize,
) -> Result<bool, Memory>
    requires replayable { IsReplayable table.now (sequent_of sequent.now) }
    requires countable { length rules.old.items < 2 ^ 32 }
    requires within { index < length rules.old.items }
    ensures same { OnOk result (rules.new.items ≡ rules.old.items) }
    ensures right { IfOk result (λ does. does ≡ true → Derives table.now (remove rules.old.items index) (sequent_of sequent.now)) }
    ensures whole { IfOk result (λ does. Derives table.now (remove rules.old.items index) (sequent_of sequent.now) → does ≡ true) }
{
    let left_out = rules.remove(index);
    let does = closes(alloc, table, sequent, rules.as_slice())?;
    rules.insert(index, left_out)?;
    Ok(does)
}
