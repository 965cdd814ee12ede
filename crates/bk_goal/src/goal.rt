//! What is open after the rules of a script.

ghost use Rattle.std.specs.Prelude.{◌≡◌, ◌<◌, ◌^◌, ◌||◌, true, nat_lt, [], ◌∷◌, length, map, IfOk, IfSome};
ghost use Rattle.bk_dev.specs.Flattened.{flattened};
ghost use Rattle.bk_seq.specs.Sequents.{sequent_of, Types, IsWithin};
ghost use Rattle.bk_po.specs.Shown.{named_sequent};
ghost use Rattle.bk_status.specs.Replayable.{IsReplayable};
ghost use Rattle.bk_p_proof.specs.Files.{IsShort};
ghost use Rattle.bk_scripts.specs.Grounding.{IsGrounded};
ghost use Rattle.bk_goal.specs.Shown as meant;
ghost use Rattle.bk_goal.specs.Shown.{ShowsGoal, ShowsAfter, ShowsAlone, ShowsBetween};
ghost use Rattle.bk_goal.specs.Shown.{TellsRest, TellsRule, TellsMisfit};

use crate::around::{end_text, header_text, rule_at, rule_line, title_alone};
use crate::asked::{Asked, Found};
use crate::brought::{Brought, last_brought};
use crate::names::Note;
use crate::sequents::sequents_text;
use bk_form::VarTable;
use bk_io::Memory;
use bk_kernel::{Rule, is_obvious};
use bk_raw::RawRule;
use bk_reasons::{Words, Written, write_misfit, write_unread};
use bk_replay::{Standing, open_after};
use bk_scripts::{ground, read_in};
use bk_seq::Sequent;
use std::alloc::Global;

/// A text, and whether it shows a sequent that is open or a rule that does not fit.
#[derive(Drop)]
pub struct GoalText {
    pub text: Vec<u8>,
    pub is_open: bool,
}

/// What is open of the obligation after the rules that are asked for, and the rule that comes next, with the reason where it does not
/// fit. Without a script it is the obligation itself.
pub fn goal_text(alloc: Global, asked: Asked<'_>) -> Result<GoalText, Memory>
    requires table { asked.table.now ≡ (flattened asked.dev.now).table }
    requires replayable { IsReplayable asked.table.now (sequent_of asked.obligation.now.sequent) }
    requires short { IfSome asked.found (λ f. IsShort f.script.now) }
    ensures { IfOk result (λ g. ShowsGoal (flattened asked.entry.dev.now) asked.entry.found asked.entry.at
        (named_sequent asked.entry.obligation.now) g.text.items g.is_open) }
{
    let sequent = again(alloc, &asked.obligation.sequent)?;
    match asked.found {
        Some(found) => behind_rules(alloc, asked, found, sequent),
        None => alone(alloc, asked, sequent),
    }
}

// The obligation itself.
fn alone(alloc: Global, asked: Asked<'_>, sequent: Sequent) -> Result<GoalText, Memory>
    ensures { IfOk result (λ g.
        ShowsAlone asked.entry.table.now (asked.entry.obligation.now.name, sequent_of sequent) g.text.items g.is_open) }
{
    let is_open = !is_obvious(&sequent);
    let before = title_alone(alloc, &asked.obligation.name, is_open)?;
    let open = only(alloc, sequent)?;
    let none = Brought { old: 0, news: 0 };
    let text = between(alloc, asked.table, asked.notes, &open, none, &before, &[])?;
    Ok(GoalText { text, is_open })
}

fn only(alloc: Global, sequent: Sequent) -> Result<Vec<Sequent>, Memory>
    ensures { IfOk result (λ list. list.items ≡ sequent ∷ []) }
{
    Ok(Vec::from_array(alloc, [sequent])?)
}

// The sequents between two texts; what a rule brought is marked.
fn between(
    alloc: Global,
    table: &VarTable,
    notes: &[Note],
    open: &[Sequent],
    brought: Brought,
    before: &[u8],
    behind: &[u8],
) -> Result<Vec<u8>, Memory>
    ensures { IfOk result (λ text.
        ShowsBetween before.now behind.now table.now brought (map sequent_of open.now) text.items) }
{
    let shown = sequents_text(alloc, table, notes, open, brought)?;
    let mut text = Vec::from_slice(alloc, before)?;
    text.extend_from_slice(&shown)?;
    text.extend_from_slice(behind)?;
    Ok(text)
}

// What is open after rules of the script.
fn behind_rules(
    alloc: Global,
    asked: Asked<'_>,
    found: Found<'_>,
    sequent: Sequent,
) -> Result<GoalText, Memory>
    requires table { asked.table.now ≡ (flattened asked.dev.now).table }
    requires replayable { IsReplayable asked.table.now (sequent_of sequent) }
    requires short { IsShort found.script.now }
    ensures { IfOk result (λ g. ShowsAfter (flattened asked.entry.dev.now) found.entry asked.entry.at
        (asked.entry.obligation.now.name, sequent_of sequent) g.text.items g.is_open) }
{
    asked.dev.facts();
    let (rules, table) = ground(alloc, found.script, asked.dev, asked.table)?;
    behind_grounded(alloc, asked, found, sequent, &rules, &table)
}

// What is open after the rules for which those of the script stand.
fn behind_grounded(
    alloc: Global,
    asked: Asked<'_>,
    found: Found<'_>,
    sequent: Sequent,
    rules: &[Rule],
    table: &VarTable,
) -> Result<GoalText, Memory>
    requires grounded { IsGrounded (flattened asked.dev.now) found.script.now rules.now table.now }
    requires types { Types table.now (sequent_of sequent) }
    requires within { IsWithin (sequent_of sequent) }
    requires countable { length rules.now < 2 ^ 32 }
    ensures { IfOk result (λ g. ShowsAfter (flattened asked.entry.dev.now) found.entry asked.entry.at
        (asked.entry.obligation.now.name, sequent_of sequent) g.text.items g.is_open) }
{
    let count = count_asked(asked.at, rules.len());
    let before = again(alloc, &sequent)?;
    let standing = open_after(alloc, table, sequent, rules, count)?;
    let brought = last_brought(alloc, table, before, rules, &standing)?;
    let name = &asked.obligation.name;
    let header = header_text(alloc, name, found, standing.done as usize, rules.len())?;
    let next = next_text(alloc, asked, found, rules, &standing, count)?;
    let text = between(
        alloc,
        table,
        asked.notes,
        &standing.left,
        brought,
        &header,
        &next,
    )?;
    let is_open = is_left(&standing, count);
    Ok(GoalText { text, is_open })
}

// Of so many rules how many are asked for.
fn count_asked(at: Option<usize>, rules: usize) -> usize
    ensures { result ≡ meant.count_asked at rules }
{
    match at {
        Some(count) => count.min(rules),
        None => rules,
    }
}

// Whether a sequent is left, or not all of so many rules fit.
#[tactic(auto, using(crate::proofs::Lines::length_held))]
fn is_left(standing: &Standing, rules: usize) -> bool
    ensures { result ≡ (nat_lt standing.now.done rules || nat_lt 0 (length (map sequent_of standing.now.left.items))) }
{
    (standing.done as usize) < rules || !standing.left.is_empty()
}

// The same sequent again.
fn again(alloc: Global, sequent: &Sequent) -> Result<Sequent, Memory>
    ensures { IfOk result (λ s. sequent_of s ≡ sequent_of sequent.now) }
{
    sequent.copy(alloc)
}

// The rule that comes next, and why it does not fit, where that is so: where it is one of the first so many.
fn next_text(
    alloc: Global,
    asked: Asked<'_>,
    found: Found<'_>,
    rules: &[Rule],
    standing: &Standing,
    count: usize,
) -> Result<Vec<u8>, Memory>
    ensures { IfOk result (λ text.
        TellsRest found.entry standing.now.done count (map sequent_of standing.now.left.items) text.items) }
{
    match rule_at(found.script, standing.done as usize + 1) {
        Some(rule) => rule_told(alloc, asked, found, rules, standing, count, rule),
        None => end_text(alloc, standing.left.len()),
    }
}

// A rule, and why it does not fit.
fn rule_told(
    alloc: Global,
    asked: Asked<'_>,
    found: Found<'_>,
    rules: &[Rule],
    standing: &Standing,
    count: usize,
    rule: &RawRule,
) -> Result<Vec<u8>, Memory>
    ensures { IfOk result (λ text. TellsRule found.entry standing.now.done count rule.now text.items) }
{
    let mut text = rule_line(alloc, found, standing.done as usize + 1, rule)?;
    let misfit = misfit_text(alloc, asked, found, rules, standing, count)?;
    text.extend_from_slice(&misfit)?;
    Ok(text)
}

// Why the next rule does not fit; nothing where it is not one of the first so many.
fn misfit_text(
    alloc: Global,
    asked: Asked<'_>,
    found: Found<'_>,
    rules: &[Rule],
    standing: &Standing,
    count: usize,
) -> Result<Vec<u8>, Memory>
    ensures { IfOk result (λ text. TellsMisfit (nat_lt standing.now.done count) text.items) }
{
    if !is_asked(standing, count) {
        return nothing(alloc);
    }
    let reason = reason_text(alloc, asked, found, rules, standing)?;
    reason_line(alloc, &reason)
}

// Whether the next rule is one of the first so many.
fn is_asked(standing: &Standing, count: usize) -> bool
    ensures { result ≡ nat_lt standing.now.done count }
{
    (standing.done as usize) < count
}

fn nothing(alloc: Global) -> Result<Vec<u8>, Memory>
    ensures { IfOk result (λ text. text.items ≡ []) }
{
    Ok(Vec::new(alloc))
}

// A reason in a line of its own.
fn reason_line(alloc: Global, reason: &[u8]) -> Result<Vec<u8>, Memory>
    ensures { IfOk result (λ text. TellsMisfit true text.items) }
{
    let mut text = Vec::from_slice(alloc, b"  does not fit: ")?;
    text.extend_from_slice(reason)?;
    text.extend_from_slice(b"\n")?;
    Ok(text)
}

// Why the next rule does not fit.
fn reason_text(
    alloc: Global,
    asked: Asked<'_>,
    found: Found<'_>,
    rules: &[Rule],
    standing: &Standing,
) -> Result<Vec<u8>, Memory> {
    let (scope, table) = read_in(alloc, found.script, asked.dev, asked.table)?;
    let mut words = Words::new(alloc, &table);
    let done = standing.done as usize;
    let Some(first) = standing.left.first() else {
        words.say(b"nothing is open before it")?;
        return Ok(words.into_text());
    };
    let script = found.script;
    if let (Some(rule), Some(written)) = (rules.get(done), script.rules.get(done)) {
        if let Rule::Unread = rule {
            let text = Written {
                text: found.text,
                tokens: found.tokens,
            };
            write_unread(&mut words, text, &scope, written)?;
        } else {
            write_misfit(&mut words, first, rule)?;
        }
    }
    Ok(words.into_text())
}
