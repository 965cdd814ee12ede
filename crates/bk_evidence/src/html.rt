//! Reports as one page of HTML, without scripts and without other files.

ghost use Rattle.std.specs.Prelude.{◌≡◌, ◌++◌, IfOk, OnOk};
ghost use Rattle.std.specs.List.{flat_map};
ghost use Rattle.bk_evidence.specs.Items as counts;
ghost use Rattle.bk_evidence.specs.Html as meant;

use crate::claim::Claims;
use crate::item::{Item, Script, is_settled, write_count, write_state};
use crate::lines::concern_text;
use crate::page::{FOOT, HEAD, STYLE};
use crate::report::{Input, Report, Stray};
use crate::sums::{Sums, sums_of, sums_with};
use bk_io::Memory;
use bk_origins::Concern;
use bk_status::State;
use std::alloc::{AllocError, Global};

/// The page of a report: sums, those of each kind, the obligations, those that are open first, the files that were read, and what is
/// claimed. Texts of files are escaped.
pub fn html_page(alloc: Global, report: &Report) -> Result<Vec<u8>, Memory>
    ensures { IfOk result (λ page. page.items ≡ meant.page_text report.now) }
{
    let mut page = Vec::new(alloc);
    write_begin(&mut page, report)?;
    write_status(alloc, &mut page, &report.items)?;
    write_about(&mut page, report)?;
    put(&mut page, FOOT)?;
    Ok(page)
}

// ---- texts
fn put(page: &mut Vec<u8>, text: &str) -> Result<(), AllocError>
    ensures { OnOk result (page.new.items ≡ page.old.items ++ text.now) }
{
    page.extend_from_slice(text.as_bytes())?;
    Ok(())
}

// A byte of a text, of which marks of HTML stand as their names.
fn escape_byte(page: &mut Vec<u8>, byte: u8) -> Result<(), AllocError>
    ensures { OnOk result (page.new.items ≡ page.old.items ++ meant.escaped_byte byte) }
{
    match byte {
        b'<' => put(page, "&lt;"),
        b'>' => put(page, "&gt;"),
        b'&' => put(page, "&amp;"),
        b'"' => put(page, "&quot;"),
        b'\'' => put(page, "&#39;"),
        other => page.extend_from_slice(&[other]),
    }
}

fn escape(page: &mut Vec<u8>, text: &[u8]) -> Result<(), AllocError>
    ensures { OnOk result (page.new.items ≡ page.old.items ++ meant.escaped text.now) }
{
    for byte in text {
        escape_byte(page, *byte)?;
    }
    Ok(())
}

// A text between marks.
fn put_text(page: &mut Vec<u8>, before: &str, text: &[u8], after: &str) -> Result<(), AllocError>
    ensures { OnOk result (page.new.items ≡ page.old.items ++ meant.text_within before.now text.now after.now) }
{
    put(page, before)?;
    escape(page, text)?;
    put(page, after)?;
    Ok(())
}

// A count between marks.
fn put_count(page: &mut Vec<u8>, before: &str, count: usize, after: &str) -> Result<(), AllocError>
    ensures { OnOk result (page.new.items ≡ page.old.items ++ meant.count_within before.now count after.now) }
{
    write_count(page, before.as_bytes(), count)?;
    put(page, after)?;
    Ok(())
}

// ---- the page
fn write_begin(page: &mut Vec<u8>, report: &Report) -> Result<(), AllocError>
    ensures { OnOk result (page.new.items ≡ page.old.items ++ meant.begin_part report.now) }
{
    put_text(page, HEAD, report.machine.as_bytes(), STYLE)?;
    put_text(page, "<h1>Status of ", report.machine.as_bytes(), "</h1>\n")?;
    Ok(())
}

fn write_status(alloc: Global, page: &mut Vec<u8>, items: &[Item]) -> Result<(), AllocError>
    ensures { OnOk result (page.new.items ≡ page.old.items ++ meant.status_part items.now) }
{
    write_sums(page, sums_of(items))?;
    write_concerns(page, items)?;
    write_rows(alloc, page, items, false)?;
    write_rows(alloc, page, items, true)?;
    Ok(())
}

fn write_about(page: &mut Vec<u8>, report: &Report) -> Result<(), AllocError>
    ensures { OnOk result (page.new.items ≡ page.old.items ++ meant.about_part report.now) }
{
    write_strays(page, &report.strays)?;
    write_inputs(page, &report.inputs)?;
    write_tool(page, report)?;
    write_claims(page, report.claims)?;
    Ok(())
}

// ---- sums
fn write_sums(page: &mut Vec<u8>, sums: Sums) -> Result<(), AllocError>
    ensures { OnOk result (page.new.items ≡ page.old.items ++ meant.sums_part sums) }
{
    put_count(
        page,
        "<ul class=\"sums\">\n<li><b>",
        sums.obligations,
        "</b>obligations</li>\n",
    )?;
    put_count(page, "<li><b>", sums.obvious, "</b>obvious</li>\n")?;
    put_count(page, "<li><b>", sums.proved, "</b>proved</li>\n")?;
    put_count(page, "<li><b>", sums.left, "</b>open</li>\n</ul>\n")?;
    Ok(())
}

// The sums of each kind.
fn write_concerns(page: &mut Vec<u8>, items: &[Item]) -> Result<(), AllocError>
    ensures { OnOk result (page.new.items ≡ page.old.items ++ meant.concerns_part items.now) }
{
    put(
        page,
        "<table>\n<thead><tr><th>Kind</th><th>Obligations</th><th>Obvious</th><th>Proved</th><th>Open</th></tr></thead>\n<tbody>\n",
    )?;
    write_first_concerns(page, items)?;
    write_last_concerns(page, items)?;
    put(page, "</tbody>\n</table>\n")?;
    Ok(())
}

fn write_first_concerns(page: &mut Vec<u8>, items: &[Item]) -> Result<(), AllocError>
    ensures { OnOk result (page.new.items ≡ page.old.items ++ meant.first_concerns_part items.now) }
{
    write_concern(page, items, Concern::Initialisation)?;
    write_concern(page, items, Concern::Operation)?;
    write_concern(page, items, Concern::Assertion)?;
    Ok(())
}

fn write_last_concerns(page: &mut Vec<u8>, items: &[Item]) -> Result<(), AllocError>
    ensures { OnOk result (page.new.items ≡ page.old.items ++ meant.last_concerns_part items.now) }
{
    write_concern(page, items, Concern::Values)?;
    write_concern(page, items, Concern::Definedness)?;
    write_concern(page, items, Concern::Other)?;
    Ok(())
}

fn write_concern(page: &mut Vec<u8>, items: &[Item], concern: Concern) -> Result<(), AllocError>
    ensures { OnOk result (page.new.items ≡ page.old.items ++ meant.concern_part concern (counts.sums_with concern items.now)) }
{
    let sums = sums_with(items, concern);
    write_some(page, concern, sums)?;
    Ok(())
}

fn write_some(page: &mut Vec<u8>, concern: Concern, sums: Sums) -> Result<(), AllocError>
    ensures { OnOk result (page.new.items ≡ page.old.items ++ meant.concern_part concern sums) }
{
    if sums.obligations == 0 {
        return Ok(());
    }
    write_concern_row(page, concern, sums)?;
    Ok(())
}

fn write_concern_row(page: &mut Vec<u8>, concern: Concern, sums: Sums) -> Result<(), AllocError>
    ensures { OnOk result (page.new.items ≡ page.old.items ++ meant.concern_row concern sums) }
{
    put_text(page, "<tr><td>", concern_text(concern).as_bytes(), "</td>")?;
    write_cells(page, sums)?;
    Ok(())
}

fn write_cells(page: &mut Vec<u8>, sums: Sums) -> Result<(), AllocError>
    ensures { OnOk result (page.new.items ≡ page.old.items ++ meant.cells_part sums) }
{
    put_count(page, "<td>", sums.obligations, "</td>")?;
    put_count(page, "<td>", sums.obvious, "</td>")?;
    put_count(page, "<td>", sums.proved, "</td>")?;
    put_count(page, "<td>", sums.left, "</td></tr>\n")?;
    Ok(())
}

// ---- obligations
// Those that are settled, or those that are not.
fn write_rows(
    alloc: Global,
    page: &mut Vec<u8>,
    items: &[Item],
    settled: bool,
) -> Result<(), AllocError>
    ensures { OnOk result (page.new.items ≡ page.old.items ++ meant.rows_part settled items.now) }
{
    let rows = rows_text(alloc, items, settled)?;
    write_table(page, settled, &rows)?;
    Ok(())
}

fn rows_text(alloc: Global, items: &[Item], settled: bool) -> Result<Vec<u8>, AllocError>
    ensures { IfOk result (λ rows. rows.items ≡ flat_map (meant.asked_row settled) items.now) }
{
    let mut rows = Vec::new(alloc);
    for item in items {
        write_if_asked(&mut rows, item, settled)?;
    }
    Ok(rows)
}

fn write_if_asked(page: &mut Vec<u8>, item: &Item, settled: bool) -> Result<(), AllocError>
    ensures { OnOk result (page.new.items ≡ page.old.items ++ meant.asked_row settled item.now) }
{
    if !is_asked(item.state, settled) {
        return Ok(());
    }
    write_row(page, item)?;
    Ok(())
}

// Whether it is one of those that are settled, or of those that are not.
fn is_asked(state: State, settled: bool) -> bool
    ensures { result ≡ meant.is_asked settled state }
{
    if settled {
        is_settled(state)
    } else {
        !is_settled(state)
    }
}

// Rows as a table; nothing where there are none.
fn write_table(page: &mut Vec<u8>, settled: bool, rows: &[u8]) -> Result<(), AllocError>
    ensures { OnOk result (page.new.items ≡ page.old.items ++ meant.table_part settled rows.now) }
{
    if rows.is_empty() {
        return Ok(());
    }
    write_whole_table(page, settled, rows)?;
    Ok(())
}

fn write_whole_table(page: &mut Vec<u8>, settled: bool, rows: &[u8]) -> Result<(), AllocError>
    ensures { OnOk result (page.new.items ≡ page.old.items ++ meant.whole_table settled rows.now) }
{
    put(page, heading(settled))?;
    put(
        page,
        "<table>\n<thead><tr><th>Obligation</th><th>What it asks</th><th>Where</th><th>State</th></tr></thead>\n<tbody>\n",
    )?;
    page.extend_from_slice(rows)?;
    put(page, "</tbody>\n</table>\n")?;
    Ok(())
}

fn heading(settled: bool) -> &'static str
    ensures { result.now ≡ meant.heading settled }
{
    if settled {
        "<h2>Settled</h2>\n"
    } else {
        "<h2>Open</h2>\n"
    }
}

fn write_row(page: &mut Vec<u8>, item: &Item) -> Result<(), AllocError>
    ensures { OnOk result (page.new.items ≡ page.old.items ++ meant.row_part item.now) }
{
    write_question(page, item)?;
    write_place(page, item)?;
    write_answer(page, item)?;
    write_shown(page, item.shown.as_bytes())?;
    Ok(())
}

// Its name, and what it asks.
fn write_question(page: &mut Vec<u8>, item: &Item) -> Result<(), AllocError>
    ensures { OnOk result (page.new.items ≡ page.old.items ++ meant.question_part item.now) }
{
    put_text(
        page,
        "<tr><td><code>",
        item.name.as_bytes(),
        "</code></td><td>",
    )?;
    escape(page, item.words.as_bytes())?;
    Ok(())
}

// Where it comes from.
fn write_place(page: &mut Vec<u8>, item: &Item) -> Result<(), AllocError>
    ensures { OnOk result (page.new.items ≡ page.old.items ++ meant.place_part item.now) }
{
    put_text(page, "</td><td><code>", item.file.as_bytes(), "")?;
    write_count(page, b":", item.line)?;
    put_count(page, ":", item.column, "</code></td>")?;
    Ok(())
}

// Its state, and its script.
fn write_answer(page: &mut Vec<u8>, item: &Item) -> Result<(), AllocError>
    ensures { OnOk result (page.new.items ≡ page.old.items ++ meant.answer_part item.now) }
{
    put(page, state_mark(item.state))?;
    write_state(page, item.state)?;
    write_script(page, &item.script)?;
    put(page, "</td></tr>\n")?;
    Ok(())
}

fn state_mark(state: State) -> &'static str
    ensures { result.now ≡ meant.state_mark state }
{
    if is_settled(state) {
        "<td class=\"settled\">"
    } else {
        "<td class=\"open\">"
    }
}

fn write_script(page: &mut Vec<u8>, script: &Option<Script>) -> Result<(), AllocError>
    ensures { OnOk result (page.new.items ≡ page.old.items ++ meant.script_part script.now) }
{
    match script {
        Some(script) => write_rules(page, script),
        None => Ok(()),
    }
}

fn write_rules(page: &mut Vec<u8>, script: &Script) -> Result<(), AllocError>
    ensures { OnOk result (page.new.items ≡ page.old.items ++ meant.rules_part script.now) }
{
    put_text(page, "<br><code>", script.place.as_bytes(), "</code>")?;
    write_count(page, b", rules ", script.rules)?;
    Ok(())
}

// What is open of it, folded.
fn write_shown(page: &mut Vec<u8>, shown: &[u8]) -> Result<(), AllocError>
    ensures { OnOk result (page.new.items ≡ page.old.items ++ meant.shown_part shown.now) }
{
    if shown.is_empty() {
        return Ok(());
    }
    put_text(
        page,
        "<tr class=\"shown\"><td colspan=\"4\"><details><summary>sequents</summary><pre>",
        shown,
        "</pre></details></td></tr>\n",
    )?;
    Ok(())
}

// ---- what else is known
fn write_strays(page: &mut Vec<u8>, strays: &[Stray]) -> Result<(), AllocError>
    ensures { OnOk result (page.new.items ≡ page.old.items ++ meant.strays_part strays.now) }
{
    if strays.is_empty() {
        return Ok(());
    }
    write_stray_list(page, strays)?;
    Ok(())
}

fn write_stray_list(page: &mut Vec<u8>, strays: &[Stray]) -> Result<(), AllocError>
    ensures { OnOk result (page.new.items ≡ page.old.items ++ meant.stray_list strays.now) }
{
    put(
        page,
        "<h2>Scripts that belong to no obligation</h2>\n<ul>\n",
    )?;
    write_each_stray(page, strays)?;
    put(page, "</ul>\n")?;
    Ok(())
}

fn write_each_stray(page: &mut Vec<u8>, strays: &[Stray]) -> Result<(), AllocError>
    ensures { OnOk result (page.new.items ≡ page.old.items ++ flat_map meant.stray_part strays.now) }
{
    for stray in strays {
        put_text(page, "<li><code>", stray.name.as_bytes(), "</code></li>\n")?;
    }
    Ok(())
}

fn write_inputs(page: &mut Vec<u8>, inputs: &[Input]) -> Result<(), AllocError>
    ensures { OnOk result (page.new.items ≡ page.old.items ++ meant.inputs_part inputs.now) }
{
    put(
        page,
        "<h2>Files that were read</h2>\n<table>\n<thead><tr><th>File</th><th>Bytes</th><th>SHA-256</th></tr></thead>\n<tbody>\n",
    )?;
    write_files(page, inputs)?;
    put(page, "</tbody>\n</table>\n")?;
    Ok(())
}

fn write_files(page: &mut Vec<u8>, inputs: &[Input]) -> Result<(), AllocError>
    ensures { OnOk result (page.new.items ≡ page.old.items ++ flat_map meant.input_part inputs.now) }
{
    for input in inputs {
        write_input(page, input)?;
    }
    Ok(())
}

fn write_input(page: &mut Vec<u8>, input: &Input) -> Result<(), AllocError>
    ensures { OnOk result (page.new.items ≡ page.old.items ++ meant.input_part input.now) }
{
    put_text(
        page,
        "<tr><td><code>",
        input.name.as_bytes(),
        "</code></td>",
    )?;
    put_count(page, "<td>", input.length, "</td>")?;
    put_text(
        page,
        "<td><code>",
        input.digest.as_str().as_bytes(),
        "</code></td></tr>\n",
    )?;
    Ok(())
}

fn write_tool(page: &mut Vec<u8>, report: &Report) -> Result<(), AllocError>
    ensures { OnOk result (page.new.items ≡ page.old.items ++ meant.tool_part report.now) }
{
    put_text(
        page,
        "<h2>Written by</h2>\n<p>bkproof of bkit ",
        report.version.as_bytes(),
        "",
    )?;
    put_text(
        page,
        ", proved with ",
        report.toolchain.as_bytes(),
        "</p>\n",
    )?;
    Ok(())
}

// What is proved, trusted and not claimed.
fn write_claims(page: &mut Vec<u8>, claims: Claims) -> Result<(), AllocError>
    ensures { OnOk result (page.new.items ≡ page.old.items ++ meant.claims_part claims) }
{
    put_text(
        page,
        "<h2>What this says</h2>\n<p><b>Proved</b>: ",
        claims.proved.as_bytes(),
        "</p>\n",
    )?;
    put_text(
        page,
        "<p><b>Trusted</b>: ",
        claims.trusted.as_bytes(),
        "</p>\n",
    )?;
    put_text(
        page,
        "<p><b>Not claimed</b>: ",
        claims.not_claimed.as_bytes(),
        "</p>\n",
    )?;
    Ok(())
}
