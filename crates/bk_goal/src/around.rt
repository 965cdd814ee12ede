//! The lines around sequents.

ghost use Rattle.std.specs.Prelude.{◌≡◌, ◌<◌, ℕ, Some, IfOk};
ghost use Rattle.std.specs.Option.{option_copied};
ghost use Rattle.bk_seq.specs.Paths.{numbered_item};
ghost use Rattle.bk_goal.specs.Shown as meant;
ghost use Rattle.bk_goal.specs.Shown.{header, title, place_of_rule};

use crate::asked::Found;
use crate::sequents::{count_text, write_count};
use bk_io::{Memory, Text};
use bk_places::place_of;
use bk_raw::{RawRule, RawScript};
use bk_rule_texts::rule_text;
use std::alloc::Global;

/// `Tally.inc.1, no script`.
pub(crate) fn title_alone(alloc: Global, name: &Text, is_open: bool) -> Result<Vec<u8>, Memory>
    ensures { IfOk result (λ text. text.items ≡ meant.title_alone name.now is_open) }
{
    let words = words_alone(is_open);
    let mut text = Vec::from_slice(alloc, name.as_bytes())?;
    text.extend_from_slice(words)?;
    Ok(text)
}

fn words_alone(is_open: bool) -> &'static [u8]
    ensures { result.now ≡ meant.words_alone is_open }
{
    if is_open {
        b", no script\n"
    } else {
        b", obvious: it needs no script\n"
    }
}

/// `Tally.inc.1, after rule 2 of 5 (Tally.prf:2:46)`.
pub(crate) fn header_text(
    alloc: Global,
    name: &Text,
    found: Found<'_>,
    done: usize,
    rules: usize,
) -> Result<Vec<u8>, Memory>
    ensures { IfOk result (λ text. text.items ≡ header name.now found.entry done rules) }
{
    let mut text = title_text(alloc, name, done, rules)?;
    let place = place_behind(alloc, found, done)?;
    text.extend_from_slice(&place)?;
    text.extend_from_slice(b"\n")?;
    Ok(text)
}

// `Tally.inc.1, after rule 2 of 5`.
fn title_text(alloc: Global, name: &Text, done: usize, rules: usize) -> Result<Vec<u8>, Memory>
    ensures { IfOk result (λ text. text.items ≡ title name.now done rules) }
{
    if done == 0 {
        return title_before(alloc, name, rules);
    }
    title_after(alloc, name, done, rules)
}

// `Tally.inc.1, before the first of 5 rules`.
fn title_before(alloc: Global, name: &Text, rules: usize) -> Result<Vec<u8>, Memory>
    ensures { IfOk result (λ text. text.items ≡ title name.now 0 rules) }
{
    let mut text = Vec::from_slice(alloc, name.as_bytes())?;
    write_count(&mut text, b", before the first of ", rules)?;
    text.extend_from_slice(b" rules")?;
    Ok(text)
}

// `Tally.inc.1, after rule 2 of 5`, where there is such a rule.
fn title_after(alloc: Global, name: &Text, done: usize, rules: usize) -> Result<Vec<u8>, Memory>
    requires { 0 < done }
    ensures { IfOk result (λ text. text.items ≡ title name.now done rules) }
{
    let mut text = Vec::from_slice(alloc, name.as_bytes())?;
    write_count(&mut text, b", after rule ", done)?;
    write_count(&mut text, b" of ", rules)?;
    Ok(text)
}

// The place of the rule with this number, if there is one.
fn place_behind(alloc: Global, found: Found<'_>, number: usize) -> Result<Vec<u8>, Memory>
    ensures { IfOk result (λ text. text.items ≡ place_of_rule found.entry (numbered_item found.entry.script.now.rules number)) }
{
    match rule_at(found.script, number) {
        Some(rule) => place_text(alloc, found, rule),
        None => Ok(Vec::new(alloc)),
    }
}

/// The rule of a script with this number, from 1.
pub(crate) fn rule_at(script: &RawScript, number: usize) -> Option<&RawRule>
    ensures { option_copied result ≡ numbered_item script.now.rules number }
{
    numbered(&script.rules, number)
}

fn numbered(rules: &[RawRule], number: usize) -> Option<&RawRule>
    ensures { option_copied result ≡ numbered_item rules.now number }
{
    let index = number.checked_sub(1)?;
    rules.get(index)
}

fn place_text(alloc: Global, found: Found<'_>, rule: &RawRule) -> Result<Vec<u8>, Memory>
    ensures { IfOk result (λ text. text.items ≡ place_of_rule found.entry (Some rule.now)) }
{
    text_of_place(alloc, found, rule.at)
}

// ` (Tally.prf:2:46)`.
fn text_of_place(alloc: Global, found: Found<'_>, at: usize) -> Result<Vec<u8>, Memory>
    ensures { IfOk result (λ text. text.items ≡ meant.place_text found.entry.file.now found.entry.text.now at) }
{
    let place = place_of(found.text, at);
    let mut text = Vec::from_slice(alloc, b" (")?;
    text.extend_from_slice(found.file)?;
    write_count(&mut text, b":", place.line)?;
    write_count(&mut text, b":", place.column)?;
    text.extend_from_slice(b")")?;
    Ok(text)
}

/// `rule 3 (Tally.prf:2:52): hyp 3`.
pub(crate) fn rule_line(
    alloc: Global,
    found: Found<'_>,
    number: usize,
    rule: &RawRule,
) -> Result<Vec<u8>, Memory>
    ensures { IfOk result (λ text. (n : ℕ) × (text.items ≡ meant.rule_line found.entry number rule.now n)) }
{
    let place = place_text(alloc, found, rule)?;
    let mut text = count_text(alloc, b"rule ", number)?;
    text.extend_from_slice(&place)?;
    text.extend_from_slice(b": ")?;
    text.extend_from_slice(written_at(found, rule))?;
    text.extend_from_slice(b"\n")?;
    Ok(text)
}

// What is written at the rule.
fn written_at<'a>(found: Found<'a>, rule: &RawRule) -> &'a [u8]
    ensures { (n : ℕ) × (result.now ≡ meant.rule_text found.entry rule.now n) }
{
    rule_text(found.text, found.tokens, rule.at)
}

/// What stands after the last rule, where so many sequents are left.
pub(crate) fn end_text(alloc: Global, left: usize) -> Result<Vec<u8>, Memory>
    ensures { IfOk result (λ text. text.items ≡ meant.end_text left) }
{
    if left == 0 {
        return Ok(Vec::from_slice(alloc, b"nothing is open: the script proves it\n")?);
    }
    Ok(Vec::from_slice(alloc, b"all rules fit, and the script ends here\n")?)
}
