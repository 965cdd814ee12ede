//! Scripts for the obligations of a development that are open.

ghost use Rattle.std.specs.Prelude.{◌≡◌, ◌∷◌, [], true, false, ℕ, List, length, map, Ok, IfOk, MatchOption};
ghost use Rattle.bk_dev.specs.Flattened.{flattened};
ghost use Rattle.bk_p_proof.specs.Files.{AreScriptsOf};
ghost use Rattle.bk_po.specs.Limits.{PassNoLimit};
ghost use Rattle.bk_po.specs.Obligations.{obligations, numbered_obligations};
ghost use Rattle.bk_po.specs.Shown.{named_sequent};
ghost use Rattle.bk_status.specs.Replayable.{IsReplayable};
ghost use Rattle.bk_status.specs.Rows as settled;
ghost use Rattle.bk_status.specs.States.{IsState};
ghost use Rattle.bk_status.specs.declared.state.State.TheVariants.{Proved};
ghost use Rattle.bk_print.specs.Found as meant;
ghost use Rattle.bk_print.specs.Found.{AreFound, IsFoundFor, IsLeft, IsScriptFor, IsTrial};

use crate::facts::{are_in_range, is_formed};
use crate::outcome::Outcome;
use crate::printing::print;
use crate::trial::{Trial, trial_past};
use bk_auto::find;
use bk_dev::Development;
use bk_form::VarTable;
use bk_io::Memory;
use bk_p_proof::{ScriptFault, Scripts, scripts};
use bk_po::Obligation;
use bk_status::{Row, State, state_with};
use std::alloc::Global;

/// What is found for each obligation of a development, whose states stand in the rows. A script is written for one that is open where
/// rules are found whose text, as the only proof file, proves it or is too long for a file; so no script is written whose terms are too
/// high, or that says something else in the scope of its obligation.
pub fn search_all(
    alloc: Global,
    dev: &Development,
    types: &VarTable,
    list: &[Obligation],
    rows: &[Row],
) -> Result<Vec<Outcome>, Memory>
    requires types { types.now ≡ (flattened dev.now).table }
    requires list { map named_sequent list.now ≡ numbered_obligations dev.now }
    requires within { PassNoLimit (obligations dev.now) }
    requires rows { length rows.now ≡ length list.now }
    ensures { IfOk result (λ outcomes. AreFound (flattened dev.now) (numbered_obligations dev.now) rows.now outcomes.items) }
{
    dev.facts();
    let mut outcomes = Vec::new(alloc);
    for (index, obligation) in list.iter().enumerate() {
        let outcome = outcome_of(alloc, dev, types, obligation, state_at(rows, index))?;
        outcomes.push(outcome)?;
    }
    Ok(outcomes)
}

// The state in the row with this index.
fn state_at(rows: &[Row], index: usize) -> State
    ensures { result ≡ meant.state_at rows.now index }
{
    match rows.get(index) {
        Some(row) => row.state,
        None => State::Obvious,
    }
}

// What is found for an obligation in this state.
fn outcome_of(
    alloc: Global,
    dev: &Development,
    types: &VarTable,
    obligation: &Obligation,
    state: State,
) -> Result<Outcome, Memory>
    requires types { types.now ≡ (flattened dev.now).table }
    requires replayable { IsReplayable types.now (named_sequent obligation.now).1 }
    ensures { IfOk result (IsFoundFor (flattened dev.now) (named_sequent obligation.now) state) }
{
    if is_settled(state) {
        return Ok(Outcome::Settled);
    }
    match script_for(alloc, dev, types, obligation)? {
        Some(text) => Ok(Outcome::Script(text)),
        None => Ok(Outcome::Left),
    }
}

// Whether an obligation of this state needs no script.
fn is_settled(state: State) -> bool
    ensures { result ≡ settled.is_settled state }
{
    matches!(state, State::Obvious | State::Proved)
}

// A script for an obligation, if one is found.
fn script_for(
    alloc: Global,
    dev: &Development,
    types: &VarTable,
    obligation: &Obligation,
) -> Result<Option<Vec<u8>>, Memory>
    requires types { types.now ≡ (flattened dev.now).table }
    requires replayable { IsReplayable types.now (named_sequent obligation.now).1 }
    ensures { IfOk result (λ script. MatchOption script (IsLeft (flattened dev.now) (named_sequent obligation.now))
        (λ text. IsScriptFor (flattened dev.now) (named_sequent obligation.now) text.items)) }
{
    let mut table = types.copy(alloc)?;
    let Some(rules) = find(alloc, &mut table, &obligation.sequent)? else {
        return Ok(None);
    };
    is_formed(types);
    is_formed(&table);
    are_in_range(&rules);
    let text = print(alloc, obligation.name.as_bytes(), &rules, &table)?;
    match trial(alloc, dev, types, obligation, &text)? {
        Trial::Proves => Ok(Some(text)),
        Trial::TooLong => Ok(Some(text)),
        Trial::TooHigh => Ok(None),
        Trial::Fails => Ok(None),
    }
}

// What the text is for the obligation as its only proof file.
fn trial(
    alloc: Global,
    dev: &Development,
    types: &VarTable,
    obligation: &Obligation,
    text: &[u8],
) -> Result<Trial, Memory>
    requires types { types.now ≡ (flattened dev.now).table }
    requires replayable { IsReplayable types.now (named_sequent obligation.now).1 }
    ensures { IfOk result (IsTrial (flattened dev.now) (named_sequent obligation.now) text.now) }
{
    let file = Vec::from_slice(alloc, text)?;
    match scripts(alloc, &[file]) {
        Ok(read) => trial_of(alloc, dev, types, obligation, &read),
        Err(ScriptFault::Limit { number, .. }) => Ok(trial_past(number)),
        Err(ScriptFault::Fault { .. }) => Ok(Trial::Fails),
        Err(ScriptFault::Memory) => Err(Memory),
    }
}

// The same of the scripts that are read.
fn trial_of(
    alloc: Global,
    dev: &Development,
    types: &VarTable,
    obligation: &Obligation,
    read: &Scripts,
) -> Result<Trial, Memory>
    requires types { types.now ≡ (flattened dev.now).table }
    requires replayable { IsReplayable types.now (named_sequent obligation.now).1 }
    ensures { (text : List ℕ) → AreScriptsOf (text ∷ []) read.now →
        IfOk result (IsTrial (flattened dev.now) (named_sequent obligation.now) text) }
{
    if is_proved(alloc, dev, types, obligation, read)? {
        Ok(Trial::Proves)
    } else {
        Ok(Trial::Fails)
    }
}

// Whether these scripts prove the obligation.
fn is_proved(
    alloc: Global,
    dev: &Development,
    types: &VarTable,
    obligation: &Obligation,
    read: &Scripts,
) -> Result<bool, Memory>
    requires types { types.now ≡ (flattened dev.now).table }
    requires replayable { IsReplayable types.now (named_sequent obligation.now).1 }
    ensures proved { result ≡ Ok true →
        IsState (flattened dev.now) read.now obligation.now.name (named_sequent obligation.now).1 Proved }
    ensures other { result ≡ Ok false →
        IsState (flattened dev.now) read.now obligation.now.name (named_sequent obligation.now).1 Proved → ⊥ }
{
    let sequent = obligation.sequent.copy(alloc)?;
    match state_with(alloc, dev, types, read, &obligation.name, sequent)? {
        State::Proved => Ok(true),
        _ => Ok(false),
    }
}
