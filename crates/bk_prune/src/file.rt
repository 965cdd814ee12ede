//! Proof files without rules that nothing uses.

ghost use Rattle.std.specs.Prelude.{◌≡◌, [], ◌∷◌, All, IfOk};
ghost use Rattle.bk_p_proof.specs.Files.{AreScriptsOf, IsShort};
ghost use Rattle.bk_prune.specs.Pruned.{IsPrunedFile, CountsLeft, IsReady};

use crate::edit::{Edit, edits, removal};
use crate::needs::{left_count, spare_rule};
use crate::numbering::numberings;
use crate::plan::fates;
use crate::states::{has_states_of, scripts_of};
use crate::steps::steps;
use crate::work::{Proved, Work, proves, work_of};
use bk_dev::Development;
use bk_form::{Token, VarTable};
use bk_io::Memory;
use bk_lex::{LexFault, tokens};
use bk_p_proof::Scripts;
use bk_po::Obligation;
use bk_raw::RawScript;
use bk_rule_texts::part;
use itoa::Buffer;
use std::alloc::Global;

/// A proof file, and how many of its scripts do not prove, or have a rule that can be left out.
#[derive(Drop)]
pub struct Pruned {
    pub text: Vec<u8>,
    pub left: usize,
}

/// The proof file without rules whose results nothing uses: what scripts proved they prove still, since the new text was read and
/// replayed; and it was replayed without each of its rules, to count the scripts that do not need all. A script that proves no
/// obligation stays as it is, and so does a text that is no proof file.
pub fn prune_file(
    alloc: Global,
    dev: &Development,
    table: &VarTable,
    list: &[Obligation],
    text: &[u8],
) -> Result<Pruned, Memory>
    requires { IsReady dev.now table.now list.now }
    ensures kept { IfOk result (λ p. IsPrunedFile dev.now text.now p.text.items) }
    ensures counted { IfOk result (λ p. CountsLeft dev.now list.now p.text.items p.left) }
{
    let proved = Proved {
        alloc,
        dev,
        table,
        list,
    };
    let pruned = pruned_text(proved, text)?;
    let left = left_count(proved, &pruned)?;
    Ok(Pruned { text: pruned, left })
}

// The text without rules that can go; the text itself where it has no scripts.
fn pruned_text(proved: Proved<'_>, text: &[u8]) -> Result<Vec<u8>, Memory>
    requires { IsReady proved.dev.now proved.table.now proved.list.now }
    ensures { IfOk result (λ t. IsPrunedFile proved.entry.dev.now text.now t.items) }
{
    match scripts_of(proved.alloc, text)? {
        Some(read) => prune_scripts(proved, text, &read),
        None => same_text(proved.alloc, text),
    }
}

// The text of these scripts without rules that can go; the text itself where the shorter one does not prove what it proves.
fn prune_scripts(proved: Proved<'_>, text: &[u8], read: &Scripts) -> Result<Vec<u8>, Memory>
    requires ready { IsReady proved.dev.now proved.table.now proved.list.now }
    requires reads { AreScriptsOf (text.now ∷ []) read.now }
    ensures { IfOk result (λ t. IsPrunedFile proved.entry.dev.now text.now t.items) }
{
    read.facts();
    let shorter = shorter_text(proved, text, read.all())?;
    let is_kept = has_states_of(proved.alloc, proved.dev, read, &shorter)?;
    if is_kept {
        return Ok(shorter);
    }
    same_text(proved.alloc, text)
}

fn same_text(alloc: Global, text: &[u8]) -> Result<Vec<u8>, Memory>
    ensures { IfOk result (λ t. t.items ≡ text.now) }
{
    Ok(Vec::from_slice(alloc, text)?)
}

// The text without rules that can go.
fn shorter_text(proved: Proved<'_>, text: &[u8], scripts: &[RawScript]) -> Result<Vec<u8>, Memory>
    requires ready { IsReady proved.dev.now proved.table.now proved.list.now }
    requires short { All IsShort scripts.now }
{
    let tokens = tokens_of(proved.alloc, text)?;
    let mut out = Vec::new(proved.alloc);
    let mut done = 0usize;
    for (index, script) in scripts.iter().enumerate() {
        let end = end_of(scripts, index, text.len());
        out.extend_from_slice(part(text, done, script.at))?;
        out.extend_from_slice(&script_text(proved, text, &tokens, script, end)?)?;
        done = end;
    }
    out.extend_from_slice(part(text, done, text.len()))?;
    Ok(out)
}

// Where a script ends: where the next one begins, or the text ends.
fn end_of(scripts: &[RawScript], index: usize, end: usize) -> usize {
    match scripts.get(index.saturating_add(1)) {
        Some(next) => next.at,
        None => end,
    }
}

fn tokens_of(alloc: Global, text: &[u8]) -> Result<Vec<Token>, Memory> {
    match tokens(alloc, text) {
        Ok(tokens) => Ok(tokens),
        Err(LexFault::Memory) => Err(Memory),
        Err(_) => Ok(Vec::new(alloc)),
    }
}

// The text of a script, which ends at this byte, without rules that can go.
fn script_text(
    proved: Proved<'_>,
    text: &[u8],
    tokens: &[Token],
    script: &RawScript,
    end: usize,
) -> Result<Vec<u8>, Memory>
    requires ready { IsReady proved.dev.now proved.table.now proved.list.now }
    requires short { IsShort script.now }
{
    let rules = script.rules.len();
    if let Some(found) = planned_text(proved, text, tokens, script, end, false)? {
        return lean_text(proved, found, rules);
    }
    if let Some(found) = planned_text(proved, text, tokens, script, end, true)? {
        return lean_text(proved, found, rules);
    }
    let same = Vec::from_slice(proved.alloc, part(text, script.at, end))?;
    if proves(proved, script)? {
        return lean_text(proved, same, rules);
    }
    Ok(same)
}

// The text of one script that proves, of so many rules, without rules that can be left out as they are.
fn lean_text(proved: Proved<'_>, text: Vec<u8>, rules: usize) -> Result<Vec<u8>, Memory>
    requires { IsReady proved.dev.now proved.table.now proved.list.now }
{
    let mut lean = text;
    for _ in 0..rules {
        match leaner(proved, &lean)? {
            Some(shorter) => lean = shorter,
            None => return Ok(lean),
        }
    }
    Ok(lean)
}

// The text of one script without a rule that it does not need; None where it needs each.
fn leaner(proved: Proved<'_>, text: &[u8]) -> Result<Option<Vec<u8>>, Memory>
    requires { IsReady proved.dev.now proved.table.now proved.list.now }
{
    match scripts_of(proved.alloc, text)? {
        Some(read) => leaner_script(proved, text, &read),
        None => Ok(None),
    }
}

fn leaner_script(proved: Proved<'_>, text: &[u8], read: &Scripts) -> Result<Option<Vec<u8>>, Memory>
    requires { IsReady proved.dev.now proved.table.now proved.list.now }
{
    read.facts();
    match read.all() {
        [only] => without_spare(proved, text, only),
        _ => Ok(None),
    }
}

fn without_spare(
    proved: Proved<'_>,
    text: &[u8],
    script: &RawScript,
) -> Result<Option<Vec<u8>>, Memory>
    requires ready { IsReady proved.dev.now proved.table.now proved.list.now }
    requires short { IsShort script.now }
{
    let Some(index) = spare_rule(proved, script)? else {
        return Ok(None);
    };
    let tokens = tokens_of(proved.alloc, text)?;
    let Some(change) = removal(text, &tokens, script, index) else {
        return Ok(None);
    };
    let shorter = edited(proved.alloc, text, 0, text.len(), &[change])?;
    if proves_alone(proved, &shorter)? {
        return Ok(Some(shorter));
    }
    Ok(None)
}

// The text of a script by a plan; None where no rules go, or it proves nothing.
fn planned_text(
    proved: Proved<'_>,
    text: &[u8],
    tokens: &[Token],
    script: &RawScript,
    end: usize,
    drops: bool,
) -> Result<Option<Vec<u8>>, Memory>
    requires ready { IsReady proved.dev.now proved.table.now proved.list.now }
    requires short { IsShort script.now }
{
    let Some((changes, gone)) = planned(proved, text, tokens, script, drops)? else {
        return Ok(None);
    };
    if gone == 0 {
        return Ok(None);
    }
    let shorter = edited(proved.alloc, text, script.at, end, &changes)?;
    if proves_alone(proved, &shorter)? {
        return Ok(Some(shorter));
    }
    Ok(None)
}

// The changes that a plan makes, and how many rules go; None where the script proves nothing, or the plan does not hold.
fn planned(
    proved: Proved<'_>,
    text: &[u8],
    tokens: &[Token],
    script: &RawScript,
    drops: bool,
) -> Result<Option<(Vec<Edit>, usize)>, Memory>
    requires ready { IsReady proved.dev.now proved.table.now proved.list.now }
    requires short { IsShort script.now }
{
    let alloc = proved.alloc;
    let Some(work) = work_of(proved, script)? else {
        return Ok(None);
    };
    let Work {
        rules,
        table,
        sequent,
    } = work;
    let Some(steps) = steps(alloc, &table, sequent, &rules)? else {
        return Ok(None);
    };
    let fates = fates(alloc, &rules, &steps, drops)?;
    let numbers = numberings(alloc, &rules, &steps, &fates)?;
    let gone = numbers.iter().filter(|numbers| numbers.is_none()).count();
    match edits(alloc, text, tokens, script, &numbers)? {
        Some(edits) => Ok(Some((edits, gone))),
        None => Ok(None),
    }
}

// The text from one byte up to another with these changes, which stand in order.
fn edited(
    alloc: Global,
    text: &[u8],
    start: usize,
    end: usize,
    edits: &[Edit],
) -> Result<Vec<u8>, Memory> {
    let mut out = Vec::new(alloc);
    let mut done = start;
    for edit in edits {
        out.extend_from_slice(part(text, done, edit.start))?;
        if let Some(number) = edit.number {
            out.extend_from_slice(Buffer::new().format(number).as_bytes())?;
        }
        done = edit.end;
    }
    out.extend_from_slice(part(text, done, end))?;
    Ok(out)
}

// Whether a text is one script that proves its obligation.
fn proves_alone(proved: Proved<'_>, text: &[u8]) -> Result<bool, Memory>
    requires { IsReady proved.dev.now proved.table.now proved.list.now }
{
    match scripts_of(proved.alloc, text)? {
        Some(read) => only_proves(proved, &read),
        None => Ok(false),
    }
}

fn only_proves(proved: Proved<'_>, read: &Scripts) -> Result<bool, Memory>
    requires { IsReady proved.dev.now proved.table.now proved.list.now }
{
    read.facts();
    match read.all() {
        [only] => proves(proved, only),
        _ => Ok(false),
    }
}
