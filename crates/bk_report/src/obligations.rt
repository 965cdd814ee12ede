//! The obligations of a project, as `po` writes them.

ghost use Rattle.std.specs.Prelude.{◌≡◌, ◌++◌, codes, IfOk, OnOk};
ghost use Rattle.bk_po.specs.Shown.{named_sequent};
ghost use Rattle.bk_show.specs.Shown.{shown};
ghost use Rattle.bk_report.specs.Obligations as texts;

use crate::numbers::write_count;
use bk_form::{Form, VarTable};
use bk_io::Memory;
use bk_po::Obligation;
use bk_show::show;
use std::alloc::Global;

/// The text of an obligation, with the names of the table.
pub fn obligation_text(
    alloc: Global,
    obligation: &Obligation,
    table: &VarTable,
) -> Result<Vec<u8>, Memory>
    ensures { IfOk result (λ text. text.items ≡ texts.obligation_text table.now (named_sequent obligation.now)) }
{
    let mut text = Vec::new(alloc);
    write_obligation(alloc, &mut text, obligation, table)?;
    Ok(text)
}

#[tactic(auto, using(crate::proofs::Hypotheses::lines))]
fn write_obligation(
    alloc: Global,
    text: &mut Vec<u8>,
    obligation: &Obligation,
    table: &VarTable,
) -> Result<(), Memory>
    ensures { OnOk result (text.new.items ≡
        text.old.items ++ texts.obligation_text table.now (named_sequent obligation.now)) }
{
    text.extend_from_slice(obligation.name.as_bytes())?;
    text.extend_from_slice(b"\n")?;
    write_hypotheses(alloc, text, &obligation.sequent.hyps, table)?;
    text.extend_from_slice(b"goal: ")?;
    write_line(alloc, text, &obligation.sequent.goal, table)
}

// A line for each hypothesis, with its number.
#[tactic(auto, using(crate::proofs::Hypotheses::lines))]
fn write_hypotheses(
    alloc: Global,
    text: &mut Vec<u8>,
    hypotheses: &[Form],
    table: &VarTable,
) -> Result<(), Memory>
    ensures { OnOk result (text.new.items ≡
        text.old.items ++ texts.hypothesis_lines table.now 1 hypotheses.now) }
{
    for (index, hypothesis) in hypotheses.iter().enumerate() {
        write_count(text, b"", index + 1)?;
        text.extend_from_slice(b": ")?;
        write_line(alloc, text, hypothesis, table)?;
    }
    Ok(())
}

// A formula, and the end of its line.
fn write_line(
    alloc: Global,
    text: &mut Vec<u8>,
    form: &Form,
    table: &VarTable,
) -> Result<(), Memory>
    ensures { OnOk result (text.new.items ≡ text.old.items ++ shown table.now form.now ++ codes "\n") }
{
    let shown = show(alloc, form, table)?;
    text.extend_from_slice(&shown)?;
    text.extend_from_slice(b"\n")?;
    Ok(())
}
