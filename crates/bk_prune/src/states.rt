//! Whether a text proves what scripts prove.

ghost use Rattle.std.specs.Prelude.{◌≡◌, true, List, [], ◌∷◌, length, map, None, IfOk, IfSome, IfNone};
ghost use Rattle.std.specs.List.{AllZip};
ghost use Rattle.bk_raw.specs.Trees.ScriptTree.{RawScript as ScriptTree};
ghost use Rattle.bk_p_proof.specs.Files.{AreScriptsOf};
ghost use Rattle.bk_status.specs.Rows.{HasRows};
ghost use Rattle.bk_status.specs.States as meant;
ghost use Rattle.bk_prune.specs.Pruned.{HasStatesOf, HaveSameRows, IsNoLonger};

use bk_dev::Development;
use bk_io::Memory;
use bk_p_proof::laws::faults_exclude;
use bk_p_proof::{ScriptFault, Scripts, scripts};
use bk_po::PoFault;
use bk_raw::{RawRule, RawScript};
use bk_status::{Row, State, Table, name_text, status};
use std::alloc::Global;

/// The scripts of a text; None where it is no proof file.
pub(crate) fn scripts_of(alloc: Global, text: &[u8]) -> Result<Option<Scripts>, Memory>
    ensures read { IfOk result (λ found. IfSome found (λ list. AreScriptsOf (text.now ∷ []) list)) }
    ensures none { IfOk result (λ found. IfNone found ((list : List ScriptTree) → AreScriptsOf (text.now ∷ []) list → ⊥)) }
{
    faults_exclude();
    let texts = one_text(alloc, text)?;
    match scripts(alloc, &texts) {
        Ok(list) => Ok(Some(list)),
        Err(fault) => no_scripts(fault),
    }
}

fn one_text(alloc: Global, text: &[u8]) -> Result<Vec<Vec<u8>>, Memory>
    ensures { IfOk result (λ texts. map (λ own. own.items) texts.items ≡ text.now ∷ []) }
{
    let own = Vec::from_slice(alloc, text)?;
    Ok(Vec::from_array(alloc, [own])?)
}

// What is found where there is this fault.
fn no_scripts(fault: ScriptFault) -> Result<Option<Scripts>, Memory>
    ensures none { IfOk result (λ found. found ≡ None) }
    ensures fault { IfOk result (λ found. fault ≡ ScriptFault.Memory → ⊥) }
{
    match fault {
        ScriptFault::Memory => Err(Memory),
        _ => Ok(None),
    }
}

/// Whether a text reads as scripts that are no longer than these, and with which the status table is the one that these make. An answer of
/// false says nothing.
pub(crate) fn has_states_of(
    alloc: Global,
    dev: &Development,
    before: &Scripts,
    text: &[u8],
) -> Result<bool, Memory>
    ensures { IfOk result (λ has. has ≡ true → HasStatesOf dev.now before.now text.now) }
{
    match scripts_of(alloc, text)? {
        Some(after) => have_states_of(alloc, dev, before, after),
        None => Ok(false),
    }
}

// Whether scripts are no longer than the others, with the same status table.
fn have_states_of(
    alloc: Global,
    dev: &Development,
    before: &Scripts,
    after: Scripts,
) -> Result<bool, Memory>
    ensures each { IfOk result (λ have. have ≡ true → AllZip IsNoLonger before.now after) }
    ensures same { IfOk result (λ have. have ≡ true → HaveSameRows dev.now before.now after) }
{
    let are_short = are_no_longer(alloc, before.all(), after.all())?;
    if are_short {
        return have_same_rows(alloc, dev, before, &after);
    }
    Ok(false)
}

fn have_same_rows(
    alloc: Global,
    dev: &Development,
    before: &Scripts,
    after: &Scripts,
) -> Result<bool, Memory>
    ensures { IfOk result (λ have. have ≡ true → HaveSameRows dev.now before.now after.now) }
{
    match table_of(alloc, dev, before)? {
        Some(old) => has_rows(alloc, dev, after, &old.rows),
        None => Ok(false),
    }
}

// Whether these are the rows of the status table.
fn has_rows(alloc: Global, dev: &Development, list: &Scripts, rows: &[Row]) -> Result<bool, Memory>
    ensures { IfOk result (λ has. has ≡ true → HasRows dev.now list.now rows.now) }
{
    match table_of(alloc, dev, list)? {
        Some(table) => Ok(are_same(&table.rows, rows)),
        None => Ok(false),
    }
}

// Whether the second scripts have the names of the first, in the same order, and no more rules.
fn are_no_longer(alloc: Global, old: &[RawScript], new: &[RawScript]) -> Result<bool, Memory>
    ensures { IfOk result (λ are. are ≡ true → AllZip IsNoLonger old.now new.now) }
{
    if old.len() != new.len() {
        return Ok(false);
    }
    for (index, script) in old.iter().enumerate() {
        let is_fine = is_no_longer(alloc, script, &new[index])?;
        if !is_fine {
            return Ok(false);
        }
    }
    Ok(true)
}

fn is_no_longer(alloc: Global, old: &RawScript, new: &RawScript) -> Result<bool, Memory>
    ensures { IfOk result (λ is. is ≡ true → IsNoLonger old.now new.now) }
{
    let is_named = has_name_of(alloc, old, new)?;
    if !is_named {
        return Ok(false);
    }
    let before = rule_count(old);
    let after = rule_count(new);
    if before < after {
        return Ok(false);
    }
    Ok(true)
}

// Whether both scripts have one name.
fn has_name_of(alloc: Global, old: &RawScript, new: &RawScript) -> Result<bool, Memory>
    ensures { IfOk result (λ has. has ≡ true → meant.name_text new.now.name ≡ meant.name_text old.now.name) }
{
    let own = name_of(alloc, old)?;
    let other = name_of(alloc, new)?;
    Ok(other == own)
}

fn name_of(alloc: Global, script: &RawScript) -> Result<Vec<u8>, Memory>
    ensures { IfOk result (λ name. name.items ≡ meant.name_text script.now.name) }
{
    name_text(alloc, &script.name)
}

fn rule_count(script: &RawScript) -> usize
    ensures { result ≡ length script.now.rules }
{
    count(&script.rules)
}

fn count(rules: &[RawRule]) -> usize
    ensures { result ≡ length rules.now }
{
    rules.len()
}

// The status table; None where the obligations pass a limit.
fn table_of(alloc: Global, dev: &Development, list: &Scripts) -> Result<Option<Table>, Memory>
    ensures { IfOk result (λ found. IfSome found (λ table. HasRows dev.now list.now table.rows.items)) }
{
    match status(alloc, dev, list) {
        Ok(table) => Ok(Some(table)),
        Err(PoFault::Memory) => Err(Memory),
        Err(_) => Ok(None),
    }
}

// Whether two tables have the same rows.
fn are_same(old: &[Row], new: &[Row]) -> bool
    ensures { result ≡ true → new.now ≡ old.now }
{
    if old.len() != new.len() {
        return false;
    }
    for (index, row) in old.iter().enumerate() {
        let other = &new[index];
        if !is_same(row, other) {
            return false;
        }
    }
    true
}

fn is_same(row: &Row, other: &Row) -> bool
    ensures { result ≡ true → other.now ≡ row.now }
{
    let has_name = other.name.equal(&row.name);
    if !has_name {
        return false;
    }
    is_same_state(row.state, other.state)
}

fn is_same_state(state: State, other: State) -> bool
    ensures { result ≡ true → other ≡ state }
{
    match state {
        State::Obvious => matches!(other, State::Obvious),
        State::Proved => matches!(other, State::Proved),
        State::NoScript => matches!(other, State::NoScript),
        State::BadStep(rule) => is_bad_step(other, rule),
        State::Open(left) => is_open(other, left),
        State::Extra(rule) => is_extra(other, rule),
    }
}

fn is_bad_step(state: State, rule: u32) -> bool
    ensures { result ≡ true → state ≡ State.BadStep rule }
{
    match state {
        State::BadStep(number) => number == rule,
        _ => false,
    }
}

fn is_open(state: State, left: u32) -> bool
    ensures { result ≡ true → state ≡ State.Open left }
{
    match state {
        State::Open(number) => number == left,
        _ => false,
    }
}

fn is_extra(state: State, rule: u32) -> bool
    ensures { result ≡ true → state ≡ State.Extra rule }
{
    match state {
        State::Extra(number) => number == rule,
        _ => false,
    }
}
