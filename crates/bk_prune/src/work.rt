//! A script and the obligation that it is for.

ghost use Rattle.std.specs.Prelude.{◌≡◌, ◌<◌, ◌^◌, true, None, length, find, IfOk, IfSome, IfNone};
ghost use Rattle.std.specs.Option.{option_copied};
ghost use Rattle.std.specs.Str.{bytes_eq};
ghost use Rattle.bk_seq.specs.Sequents.{sequent_of};
ghost use Rattle.bk_kernel.specs.Derivations.{Derives};
ghost use Rattle.bk_p_proof.specs.Files.{IsShort};
ghost use Rattle.bk_status.specs.Replayable.{IsReplayable};
ghost use Rattle.bk_prune.specs.Pruned.{IsReady, IsWork, ProvesOne, obligation_for};

use bk_dev::Development;
use bk_form::VarTable;
use bk_io::Memory;
use bk_kernel::{Rule, Verdict, replay};
use bk_po::Obligation;
use bk_raw::RawScript;
use bk_scripts::ground;
use bk_seq::Sequent;
use bk_status::name_text;
use std::alloc::Global;

/// What scripts are for: a development, the table of its obligations, and these.
#[derive(Clone, Copy)]
pub(crate) struct Proved<'a> {
    pub(crate) alloc: Global,
    pub(crate) dev: &'a Development,
    pub(crate) table: &'a VarTable,
    pub(crate) list: &'a [Obligation],
}

/// The rules of a script, the table that they speak of, and the sequent of its obligation.
#[derive(Drop)]
pub(crate) struct Work {
    pub(crate) rules: Vec<Rule>,
    pub(crate) table: VarTable,
    pub(crate) sequent: Sequent,
}

/// What a script is for; None where no obligation has its name.
pub(crate) fn work_of(proved: Proved<'_>, script: &RawScript) -> Result<Option<Work>, Memory>
    requires ready { IsReady proved.dev.now proved.table.now proved.list.now }
    requires short { IsShort script.now }
    ensures some { IfOk result (λ found. IfSome found (IsWork proved.entry.dev.now proved.entry.list.now script.now)) }
    ensures none { IfOk result (λ found. IfNone found (obligation_for proved.entry.list.now script.now ≡ None)) }
{
    let alloc = proved.alloc;
    let name = name_text(alloc, &script.name)?;
    let Some(obligation) = named(proved.list, &name) else {
        return Ok(None);
    };
    let sequent = again(alloc, &obligation.sequent)?;
    proved.dev.facts();
    let (rules, table) = ground(alloc, script, proved.dev, proved.table)?;
    Ok(Some(Work {
        rules,
        table,
        sequent,
    }))
}

// The first obligation with this name.
fn named<'a>(list: &'a [Obligation], name: &[u8]) -> Option<&'a Obligation>
    ensures { option_copied result ≡ find (λ o. bytes_eq name.now o.name) list.now }
{
    list.iter()
        .find(|obligation| name == obligation.name.as_bytes())
}

/// The same sequent again.
pub(crate) fn again(alloc: Global, sequent: &Sequent) -> Result<Sequent, Memory>
    ensures { IfOk result (λ s. sequent_of s ≡ sequent_of sequent.now) }
{
    sequent.copy(alloc)
}

/// Whether a script proves its obligation.
pub(crate) fn proves(proved: Proved<'_>, script: &RawScript) -> Result<bool, Memory>
    requires ready { IsReady proved.dev.now proved.table.now proved.list.now }
    requires short { IsShort script.now }
    ensures right { IfOk result (λ does. does ≡ true → ProvesOne proved.entry.dev.now proved.entry.list.now script.now) }
    ensures whole { IfOk result (λ does. ProvesOne proved.entry.dev.now proved.entry.list.now script.now → does ≡ true) }
{
    let Some(work) = work_of(proved, script)? else {
        return Ok(false);
    };
    let Work {
        rules,
        table,
        sequent,
    } = work;
    closes(proved.alloc, &table, &sequent, &rules)
}

/// Whether rules derive a sequent.
pub(crate) fn closes(
    alloc: Global,
    table: &VarTable,
    sequent: &Sequent,
    rules: &[Rule],
) -> Result<bool, Memory>
    requires replayable { IsReplayable table.now (sequent_of sequent.now) }
    requires countable { length rules.now < 2 ^ 32 }
    ensures right { IfOk result (λ does. does ≡ true → Derives table.now rules.now (sequent_of sequent.now)) }
    ensures whole { IfOk result (λ does. Derives table.now rules.now (sequent_of sequent.now) → does ≡ true) }
{
    let own = again(alloc, sequent)?;
    let verdict = replay(alloc, table, own, rules)?;
    Ok(is_closed(verdict))
}

fn is_closed(verdict: Verdict) -> bool
    ensures right { result ≡ true → verdict ≡ Verdict.Closed }
    ensures whole { verdict ≡ Verdict.Closed → result ≡ true }
{
    matches!(verdict, Verdict::Closed)
}
