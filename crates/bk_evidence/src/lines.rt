//! Reports and lists of obligations as lines.

ghost use Rattle.std.specs.Prelude.{◌≡◌, ◌++◌, codes, IfOk, OnOk};
ghost use Rattle.bk_evidence.specs.Items as meant;
ghost use Rattle.bk_evidence.specs.Lines as texts;

use crate::claim::Claims;
use crate::item::{Item, Script, is_left_out, write_count, write_state};
use crate::report::{Input, Report, Stray};
use crate::sums::{Sums, sums_of, sums_with};
use bk_io::{Memory, Text};
use bk_origins::Concern;
use std::alloc::{AllocError, Global};

/// The report as lines: the machine, all obligations, the sums, those of each kind, the scripts for none, a line for each file, who wrote
/// it, and what is claimed.
pub fn report_text(alloc: Global, report: &Report) -> Result<Vec<u8>, Memory>
    ensures { IfOk result (λ text. text.items ≡ texts.report_lines report.now) }
{
    let mut text = Vec::new(alloc);
    write_title(&mut text, report.machine.as_bytes())?;
    write_items(&mut text, &report.items, false)?;
    write_sums(&mut text, sums_of(&report.items))?;
    write_concerns(&mut text, &report.items)?;
    write_strays(&mut text, &report.strays)?;
    write_inputs(&mut text, &report.inputs)?;
    write_tool(&mut text, report)?;
    write_claims(&mut text, report.claims)?;
    Ok(text)
}

/// A line for each item, or for each that is not settled: its name, what it asks, its place, its state and its script. Then one for each
/// script that belongs to none.
pub fn list_text(
    alloc: Global,
    items: &[Item],
    strays: &[Stray],
    is_open_only: bool,
) -> Result<Vec<u8>, Memory>
    ensures { IfOk result (λ text. text.items ≡ texts.list_lines is_open_only items.now ++ texts.stray_lines strays.now) }
{
    let mut text = Vec::new(alloc);
    write_items(&mut text, items, is_open_only)?;
    write_strays(&mut text, strays)?;
    Ok(text)
}

// `status of T`.
fn write_title(text: &mut Vec<u8>, machine: &[u8]) -> Result<(), AllocError>
    ensures { OnOk result (text.new.items ≡ text.old.items ++ texts.title_line machine.now) }
{
    text.extend_from_slice(b"status of ")?;
    text.extend_from_slice(machine)?;
    text.extend_from_slice(b"\n")?;
    Ok(())
}

fn write_items(text: &mut Vec<u8>, items: &[Item], is_open_only: bool) -> Result<(), AllocError>
    ensures { OnOk result (text.new.items ≡ text.old.items ++ texts.list_lines is_open_only items.now) }
{
    for item in items {
        write_if_asked(text, item, is_open_only)?;
    }
    Ok(())
}

fn write_if_asked(text: &mut Vec<u8>, item: &Item, is_open_only: bool) -> Result<(), AllocError>
    ensures { OnOk result (text.new.items ≡ text.old.items ++ texts.asked_line is_open_only item.now) }
{
    if is_left_out(item, is_open_only) {
        return Ok(());
    }
    write_item(text, item)?;
    Ok(())
}

fn write_item(text: &mut Vec<u8>, item: &Item) -> Result<(), AllocError>
    ensures { OnOk result (text.new.items ≡ text.old.items ++ texts.item_line item.now) }
{
    write_question(text, item)?;
    write_place(text, item)?;
    write_answer(text, item)?;
    Ok(())
}

// `T.inc.1  invariant conjunct 1 is preserved by inc  `.
fn write_question(text: &mut Vec<u8>, item: &Item) -> Result<(), AllocError>
    ensures { OnOk result (text.new.items ≡ text.old.items ++ texts.question_text item.now) }
{
    text.extend_from_slice(item.name.as_bytes())?;
    text.extend_from_slice(b"  ")?;
    text.extend_from_slice(item.words.as_bytes())?;
    text.extend_from_slice(b"  ")?;
    Ok(())
}

// `Tally.mch:3:12`.
fn write_place(text: &mut Vec<u8>, item: &Item) -> Result<(), AllocError>
    ensures { OnOk result (text.new.items ≡ text.old.items ++ texts.place_text item.now) }
{
    text.extend_from_slice(item.file.as_bytes())?;
    write_count(text, b":", item.line)?;
    write_count(text, b":", item.column)?;
    Ok(())
}

// `  proved, rules 4 (T.prf:1:7)`.
fn write_answer(text: &mut Vec<u8>, item: &Item) -> Result<(), AllocError>
    ensures { OnOk result (text.new.items ≡ text.old.items ++ texts.answer_text item.now) }
{
    text.extend_from_slice(b"  ")?;
    write_state(text, item.state)?;
    write_script(text, &item.script)?;
    text.extend_from_slice(b"\n")?;
    Ok(())
}

fn write_script(text: &mut Vec<u8>, script: &Option<Script>) -> Result<(), AllocError>
    ensures { OnOk result (text.new.items ≡ text.old.items ++ texts.script_text script.now) }
{
    match script {
        Some(script) => write_rules(text, script),
        None => Ok(()),
    }
}

// `, rules 4 (T.prf:1:7)`.
fn write_rules(text: &mut Vec<u8>, script: &Script) -> Result<(), AllocError>
    ensures { OnOk result (text.new.items ≡ text.old.items ++ texts.rules_text script.now) }
{
    write_count(text, b", rules ", script.rules)?;
    text.extend_from_slice(b" (")?;
    text.extend_from_slice(script.place.as_bytes())?;
    text.extend_from_slice(b")")?;
    Ok(())
}

fn write_strays(text: &mut Vec<u8>, strays: &[Stray]) -> Result<(), AllocError>
    ensures { OnOk result (text.new.items ≡ text.old.items ++ texts.stray_lines strays.now) }
{
    for stray in strays {
        write_stray(text, stray)?;
    }
    Ok(())
}

// `no obligation has the name of the script T.ink.1 (nearest: T.inc.1)`.
fn write_stray(text: &mut Vec<u8>, stray: &Stray) -> Result<(), AllocError>
    ensures { OnOk result (text.new.items ≡ text.old.items ++ texts.stray_line stray.now) }
{
    text.extend_from_slice(b"no obligation has the name of the script ")?;
    text.extend_from_slice(stray.name.as_bytes())?;
    write_nearest(text, &stray.nearest)?;
    text.extend_from_slice(b"\n")?;
    Ok(())
}

fn write_nearest(text: &mut Vec<u8>, nearest: &Option<Text>) -> Result<(), AllocError>
    ensures { OnOk result (text.new.items ≡ text.old.items ++ texts.nearest_text nearest.now) }
{
    let Some(name) = nearest else {
        return Ok(());
    };
    text.extend_from_slice(b" (nearest: ")?;
    text.extend_from_slice(name.as_bytes())?;
    text.extend_from_slice(b")")?;
    Ok(())
}

// `12 obligations: 7 obvious, 5 proved, 0 open`.
fn write_sums(text: &mut Vec<u8>, sums: Sums) -> Result<(), AllocError>
    ensures { OnOk result (text.new.items ≡ text.old.items ++ texts.sums_line sums) }
{
    write_count(text, b"", sums.obligations)?;
    write_count(text, b" obligations: ", sums.obvious)?;
    write_count(text, b" obvious, ", sums.proved)?;
    write_count(text, b" proved, ", sums.left)?;
    text.extend_from_slice(b" open\n")?;
    Ok(())
}

// The sums of each kind.
fn write_concerns(text: &mut Vec<u8>, items: &[Item]) -> Result<(), AllocError>
    ensures { OnOk result (text.new.items ≡ text.old.items ++ texts.concern_lines items.now) }
{
    write_concern(text, items, Concern::Initialisation)?;
    write_concern(text, items, Concern::Operation)?;
    write_concern(text, items, Concern::Assertion)?;
    write_concern(text, items, Concern::Values)?;
    write_concern(text, items, Concern::Definedness)?;
    write_concern(text, items, Concern::Other)?;
    Ok(())
}

fn write_concern(text: &mut Vec<u8>, items: &[Item], concern: Concern) -> Result<(), AllocError>
    ensures { OnOk result (text.new.items ≡ text.old.items ++ texts.concern_line concern (meant.sums_with concern items.now)) }
{
    let sums = sums_with(items, concern);
    write_some(text, concern, sums)?;
    Ok(())
}

fn write_some(text: &mut Vec<u8>, concern: Concern, sums: Sums) -> Result<(), AllocError>
    ensures { OnOk result (text.new.items ≡ text.old.items ++ texts.concern_line concern sums) }
{
    if sums.obligations == 0 {
        return Ok(());
    }
    write_named_sums(text, concern, sums)?;
    Ok(())
}

fn write_named_sums(text: &mut Vec<u8>, concern: Concern, sums: Sums) -> Result<(), AllocError>
    ensures { OnOk result (text.new.items ≡ text.old.items ++ texts.concern_sums concern sums) }
{
    write_name(text, concern)?;
    write_sums(text, sums)?;
    Ok(())
}

// `operations: `.
fn write_name(text: &mut Vec<u8>, concern: Concern) -> Result<(), AllocError>
    ensures { OnOk result (text.new.items ≡ text.old.items ++ (texts.concern_text concern ++ codes ": ")) }
{
    text.extend_from_slice(concern_text(concern).as_bytes())?;
    text.extend_from_slice(b": ")?;
    Ok(())
}

/// What a kind of obligations is called.
pub(crate) fn concern_text(concern: Concern) -> &'static str
    ensures { result.now ≡ texts.concern_text concern }
{
    match concern {
        Concern::Initialisation => "initialisation",
        Concern::Operation => "operations",
        Concern::Assertion => "assertions",
        Concern::Values => "values",
        Concern::Definedness => "definedness",
        Concern::Other => "others",
    }
}

fn write_inputs(text: &mut Vec<u8>, inputs: &[Input]) -> Result<(), AllocError>
    ensures { OnOk result (text.new.items ≡ text.old.items ++ texts.input_lines inputs.now) }
{
    for input in inputs {
        write_input(text, input)?;
    }
    Ok(())
}

// `T.mch 161 7efacaf9..`: a file, how many bytes it has, and its sum.
fn write_input(text: &mut Vec<u8>, input: &Input) -> Result<(), AllocError>
    ensures { OnOk result (text.new.items ≡ text.old.items ++ texts.input_line input.now) }
{
    text.extend_from_slice(input.name.as_bytes())?;
    write_count(text, b" ", input.length)?;
    text.extend_from_slice(b" ")?;
    text.extend_from_slice(input.digest.as_str().as_bytes())?;
    text.extend_from_slice(b"\n")?;
    Ok(())
}

// `written by bkproof of bkit 1, proved with rattle-kit-13f logic ..`.
fn write_tool(text: &mut Vec<u8>, report: &Report) -> Result<(), AllocError>
    ensures { OnOk result (text.new.items ≡ text.old.items ++ texts.tool_line report.now) }
{
    write_words(text, b"written by bkproof of bkit ", report.version)?;
    write_words(text, b", proved with ", report.toolchain)?;
    text.extend_from_slice(b"\n")?;
    Ok(())
}

// What is proved, trusted and not claimed.
fn write_claims(text: &mut Vec<u8>, claims: Claims) -> Result<(), AllocError>
    ensures { OnOk result (text.new.items ≡ text.old.items ++ texts.claims_lines claims) }
{
    write_words(text, b"proved: ", claims.proved)?;
    write_words(text, b"\ntrusted: ", claims.trusted)?;
    write_words(text, b"\nnot claimed: ", claims.not_claimed)?;
    text.extend_from_slice(b"\n")?;
    Ok(())
}

// Words after a name.
fn write_words(text: &mut Vec<u8>, name: &[u8], words: &str) -> Result<(), AllocError>
    ensures { OnOk result (text.new.items ≡ text.old.items ++ (name.now ++ words.now)) }
{
    text.extend_from_slice(name)?;
    text.extend_from_slice(words.as_bytes())?;
    Ok(())
}
