//! The state of one obligation.

ghost use Rattle.std.specs.Prelude.{◌≡◌, IfOk};
ghost use Rattle.bk_dev.specs.Flattened.{flattened};
ghost use Rattle.bk_seq.specs.Sequents.{sequent_of};
ghost use Rattle.bk_p_proof.specs.Files.{IsShort};
ghost use Rattle.bk_status.specs.States as meant;
ghost use Rattle.bk_status.specs.States.{IsState};
ghost use Rattle.bk_status.specs.Replayable.{IsReplayable, IsOutcome};

use crate::named::NamedScripts;
use crate::state::State;
use bk_dev::Development;
use bk_form::VarTable;
use bk_io::{Memory, Text};
use bk_kernel::{Verdict, is_obvious, replay};
use bk_p_proof::Scripts;
use bk_raw::RawScript;
use bk_scripts::ground;
use bk_seq::Sequent;
use std::alloc::Global;

/// The state of the obligation with this name and sequent where these are the scripts of the proof files. The table is that of the
/// development's obligations, as [`bk_po::obligation_table`] makes it.
pub fn state_with(
    alloc: Global,
    dev: &Development,
    types: &VarTable,
    scripts: &Scripts,
    name: &Text,
    sequent: Sequent,
) -> Result<State, Memory>
    requires types { types.now ≡ (flattened dev.now).table }
    requires replayable { IsReplayable types.now (sequent_of sequent) }
    ensures { IfOk result (IsState (flattened dev.now) scripts.now name.now (sequent_of sequent)) }
{
    let named = NamedScripts::new(alloc, scripts)?;
    state(alloc, dev, types, &named, name, sequent)
}

/// The state of the obligation with this name and sequent. Rules are replayed over the table that they speak of: that with an
/// entry for each copy, and a variable more for each name that the script brings.
pub(crate) fn state(
    alloc: Global,
    dev: &Development,
    types: &VarTable,
    named: &NamedScripts,
    name: &Text,
    sequent: Sequent,
) -> Result<State, Memory>
    requires types { types.now ≡ (flattened dev.now).table }
    requires replayable { IsReplayable types.now (sequent_of sequent) }
    ensures { IfOk result (IsState (flattened dev.now) named.now name.now (sequent_of sequent)) }
{
    if is_obvious(&sequent) {
        return Ok(State::Obvious);
    }
    match named.find(name) {
        Some(script) => Ok(outcome(alloc, dev, types, script, sequent)?),
        None => Ok(State::NoScript),
    }
}

// What the script's rules make of the sequent.
fn outcome(
    alloc: Global,
    dev: &Development,
    types: &VarTable,
    script: &RawScript,
    sequent: Sequent,
) -> Result<State, Memory>
    requires types { types.now ≡ (flattened dev.now).table }
    requires replayable { IsReplayable types.now (sequent_of sequent) }
    requires short { IsShort script.now }
    ensures { IfOk result (IsOutcome (flattened dev.now) script.now (sequent_of sequent)) }
{
    dev.facts();
    let (rules, table) = ground(alloc, script, dev, types)?;
    let verdict = replay(alloc, &table, sequent, &rules)?;
    Ok(state_of(verdict))
}

fn state_of(verdict: Verdict) -> State
    ensures { result ≡ meant.state_of verdict }
{
    match verdict {
        Verdict::Closed => State::Proved,
        Verdict::BadStep(rule) => State::BadStep(rule),
        Verdict::Open(left) => State::Open(left),
        Verdict::Extra(rule) => State::Extra(rule),
    }
}
