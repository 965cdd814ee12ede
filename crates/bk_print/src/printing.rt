//! The text of a script.

ghost use Rattle.std.specs.Prelude.{◌≡◌, ◌<◌, ◌+◌, ◌++◌, codes, drop, length, IfOk, OnOk};
ghost use Rattle.bk_show.specs.Items.{text_of};
ghost use Rattle.bk_print.specs.Text.{semicolon_before, rule_lines, lines_text, script_text};

use crate::rule::write_rule;
use bk_form::VarTable;
use bk_io::Memory;
use bk_kernel::Rule;
use std::alloc::Global;

/// The text of a script for the obligation of this name: a line `proof NAME`, a line for each rule after two blanks, with ` ;` after
/// all but the last, and a line `end`. Formulas and types have the names of the table; the variables that a rule brings stand with
/// their types. A rule that was not read has no text.
pub fn print(
    alloc: Global,
    name: &[u8],
    rules: &[Rule],
    types: &VarTable,
) -> Result<Vec<u8>, Memory>
    ensures { IfOk result (λ text. text.items ≡ script_text types.now name.now rules.now) }
{
    let mut out = Vec::from_slice(alloc, b"proof ")?;
    out.extend_from_slice(name)?;
    out.extend_from_slice(b"\n")?;
    write_rules(alloc, &mut out, types, rules)?;
    out.extend_from_slice(b"end\n")?;
    Ok(out)
}

// A line for each rule.
fn write_rules(
    alloc: Global,
    out: &mut Vec<u8>,
    types: &VarTable,
    rules: &[Rule],
) -> Result<(), Memory>
    ensures { OnOk result (out.new.items ≡ out.old.items ++ lines_text (rule_lines types.now rules.now)) }
{
    for (index, rule) in rules.iter().enumerate() {
        out.extend_from_slice(b"  ")?;
        write_rule(alloc, out, types, rule)?;
        out.extend_from_slice(end_of_line(rules, index))?;
    }
    Ok(())
}

// What ends the line of the rule at an index.
fn end_of_line(rules: &[Rule], index: usize) -> &'static [u8]
    requires { index < length rules.now }
    ensures { result.now ≡ text_of (semicolon_before (drop (index + 1) rules.now)) ++ codes "\n" }
{
    if index + 1 < rules.len() {
        b" ;\n"
    } else {
        b"\n"
    }
}
