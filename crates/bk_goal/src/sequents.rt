//! Sequents as text.

ghost use Rattle.std.specs.Prelude.{◌≡◌, ◌++◌, decimal, map, IfOk, OnOk};
ghost use Rattle.bk_seq.specs.Sequents.{sequent_of};
ghost use Rattle.bk_goal.specs.Shown as meant;
ghost use Rattle.bk_goal.specs.Shown.{ShowsSequents, ShowsTitled, ShowsSequent, ShowsHypotheses, ShowsHypothesis, ShowsFormula, TellsNames};

use crate::brought::Brought;
use crate::names::{Note, words_for};
use bk_form::{Form, VarTable};
use bk_io::Memory;
use bk_layout::laid_out;
use bk_seq::Sequent;
use bk_show::show;
use itoa::Buffer;
use std::alloc::Global;

/// How wide the lines of formulas are.
const WIDTH: usize = 100;

/// With how many blanks the further lines of a formula begin.
const INDENT: usize = 8;

/// The sequents, each with a line for each hypothesis and one for the goal; those formulas that are long take further lines. The
/// hypotheses that a rule brought are marked.
pub fn sequents_text(
    alloc: Global,
    table: &VarTable,
    notes: &[Note],
    open: &[Sequent],
    brought: Brought,
) -> Result<Vec<u8>, Memory>
    ensures { IfOk result (λ text. ShowsSequents table.now brought (map sequent_of open.now) text.items) }
{
    let mut text = Vec::new(alloc);
    for (index, sequent) in open.iter().enumerate() {
        let old = old_at(brought, index + 1);
        let block = titled_text(alloc, table, notes, sequent, old, index + 1, open.len())?;
        text.extend_from_slice(&block)?;
    }
    Ok(text)
}

// After how many hypotheses of the sequent with this number those stand that a rule brought, if the sequent came of it.
fn old_at(brought: Brought, number: usize) -> Option<usize>
    ensures { result ≡ meant.old_at brought number }
{
    if brought.news < number {
        None
    } else {
        Some(brought.old)
    }
}

// A sequent after its title, `sequent 1 of 2`; its hypotheses after so many are marked.
fn titled_text(
    alloc: Global,
    table: &VarTable,
    notes: &[Note],
    sequent: &Sequent,
    old: Option<usize>,
    number: usize,
    count: usize,
) -> Result<Vec<u8>, Memory>
    ensures { IfOk result (λ text. ShowsTitled table.now old number count (sequent_of sequent.now) text.items) }
{
    let lines = sequent_text(alloc, table, notes, sequent, old)?;
    let mut text = count_text(alloc, b"sequent ", number)?;
    write_count(&mut text, b" of ", count)?;
    text.extend_from_slice(b"\n")?;
    text.extend_from_slice(&lines)?;
    Ok(text)
}

// A sequent; its hypotheses after so many are marked.
fn sequent_text(
    alloc: Global,
    table: &VarTable,
    notes: &[Note],
    sequent: &Sequent,
    old: Option<usize>,
) -> Result<Vec<u8>, Memory>
    ensures { IfOk result (λ text. ShowsSequent table.now old (sequent_of sequent.now) text.items) }
{
    let goal = formula_text(alloc, table, notes, &sequent.goal)?;
    let mut text = hypotheses_text(alloc, table, notes, &sequent.hyps, old)?;
    text.extend_from_slice(b"  goal: ")?;
    text.extend_from_slice(&goal)?;
    Ok(text)
}

// The hypotheses, of which those after so many are marked.
fn hypotheses_text(
    alloc: Global,
    table: &VarTable,
    notes: &[Note],
    hyps: &[Form],
    old: Option<usize>,
) -> Result<Vec<u8>, Memory>
    ensures { IfOk result (λ text. ShowsHypotheses table.now old 1 hyps.now text.items) }
{
    let mut text = Vec::new(alloc);
    for (index, hypothesis) in hyps.iter().enumerate() {
        let line = hypothesis_text(alloc, table, notes, hypothesis, old, index + 1)?;
        text.extend_from_slice(&line)?;
    }
    Ok(text)
}

// A hypothesis, ` * 3: ` and its formula.
fn hypothesis_text(
    alloc: Global,
    table: &VarTable,
    notes: &[Note],
    hypothesis: &Form,
    old: Option<usize>,
    number: usize,
) -> Result<Vec<u8>, Memory>
    ensures { IfOk result (λ text. ShowsHypothesis table.now old number hypothesis.now text.items) }
{
    let formula = formula_text(alloc, table, notes, hypothesis)?;
    let mark = mark_of(old, number);
    let mut text = count_text(alloc, mark, number)?;
    text.extend_from_slice(b": ")?;
    text.extend_from_slice(&formula)?;
    Ok(text)
}

// The mark before a hypothesis with this number; those after so many have one.
fn mark_of(old: Option<usize>, number: usize) -> &'static [u8]
    ensures { result.now ≡ meant.mark_of old number }
{
    let Some(count) = old else {
        return b"   ";
    };
    if count < number { b" * " } else { b"   " }
}

// A formula in lines, and what its bound variables are called.
fn formula_text(
    alloc: Global,
    table: &VarTable,
    notes: &[Note],
    form: &Form,
) -> Result<Vec<u8>, Memory>
    ensures { IfOk result (λ text. ShowsFormula table.now form.now text.items) }
{
    let shown = show(alloc, form, table)?;
    let mut text = laid_out(alloc, &shown, WIDTH, INDENT)?;
    text.extend_from_slice(b"\n")?;
    let names = names_line(alloc, words_for(notes, form))?;
    text.extend_from_slice(&names)?;
    Ok(text)
}

// `        where $1 is i`; nothing where nothing is told.
fn names_line(alloc: Global, words: &[u8]) -> Result<Vec<u8>, Memory>
    ensures { IfOk result (λ line. TellsNames line.items) }
{
    if words.is_empty() {
        return Ok(Vec::new(alloc));
    }
    let mut line = Vec::from_slice(alloc, b"        where ")?;
    line.extend_from_slice(words)?;
    line.extend_from_slice(b"\n")?;
    Ok(line)
}

/// A count after words.
pub(crate) fn count_text(alloc: Global, before: &[u8], count: usize) -> Result<Vec<u8>, Memory>
    ensures { IfOk result (λ text. text.items ≡ before.now ++ decimal count) }
{
    let mut text = Vec::from_slice(alloc, before)?;
    text.extend_from_slice(Buffer::new().format(count).as_bytes())?;
    Ok(text)
}

/// Writes a count after words.
pub(crate) fn write_count(text: &mut Vec<u8>, before: &[u8], count: usize) -> Result<(), Memory>
    ensures { OnOk result (text.new.items ≡ text.old.items ++ (before.now ++ decimal count)) }
{
    text.extend_from_slice(before)?;
    text.extend_from_slice(Buffer::new().format(count).as_bytes())?;
    Ok(())
}
