//! `report`.

ghost use Rattle.std.specs.Prelude.{◌≡◌, ◌⊎◌, ◌++◌, Some, map, IfOk, IfErr, OnOk};
ghost use Rattle.bk_io.specs.Counts.{HasCause};
ghost use Rattle.bk_io.specs.Files.{Files};
ghost use Rattle.bk_cli.specs.Tasks.{status_task};
ghost use Rattle.bk_verbs.specs.Causes.{IsOfReading};
ghost use Rattle.bk_verbs.specs.Stops.{IsOutside, StopsTask};
ghost use Rattle.bk_verbs.specs.declared.stop.Stop.TheVariants.{ReadFault};
ghost use Rattle.bk_proof_words.specs.declared.task.Task.TheVariants.{Report as ReportTask};
ghost use Rattle.bk_proof_program.specs.Answers.{IsAnswer};
ghost use Rattle.bk_proof_program.specs.Said.{IsToldAnswer};
ghost use Rattle.bk_prune.specs.Pruned.{IsReady};
ghost use Rattle.bk_evidence.specs.Items.{row_of, pair_of, parts_of, parts_of_pair};
ghost use Rattle.bk_proof_program.specs.Texts.{file_of, files_read};
ghost use Rattle.bk_proof_program.specs.Told as meant;
ghost use Rattle.bk_proof_program.specs.Told.{IsMade, WritesReport, stray_names};

use crate::answer::Answer;
use crate::list::{all_items, status_of, strays};
use crate::project::{NamedText, Whole, found, notes_of, obligation_named, read_whole};
use bk_dev::{Development, Level};
use bk_evidence::{File, Report, claims_of_reports, html_page, inputs, json_text, report_text};
use bk_goal::{Asked, Note, goal_text};
use bk_io::{Memory, Shelf, Text};
use bk_proof_words::ReportForm;
use bk_status::Row;
use bk_verbs::Stop;
use bk_verbs::proof::table_of;
use std::alloc::Global;

/// The version of the program.
const VERSION: &str = "1";

/// What it was proved with: the line of `rt version`.
const TOOLCHAIN: &str = "rattle-kit-13f logic dac8208d650f15bf";

/// The status of a development; done where nothing is open.
pub(crate) fn report_answer<H: Shelf>(
    alloc: Global,
    project: &str,
    form: ReportForm,
    shelf: &mut H,
) -> Result<Answer, Stop>
    ensures told { IfOk result (λ a. (files : Files) → H.files shelf.old ≡ Some files →
        IsToldAnswer files (ReportTask project.entry form) a) }
    ensures ok { IfOk result IsAnswer }
    ensures cause { IfErr result (λ stop. (files : Files) → H.files shelf.old ≡ Some files →
        IsOutside stop ⊎ StopsTask files (status_task project.now) stop) }
    ensures reading { IfErr result IsOfReading }
    ensures failed { HasCause ReadFault (H.faults shelf.old) (H.faults shelf.new) result }
{
    let whole = read_whole(alloc, project, shelf)?;
    let table = table_of(alloc, project, &whole.project)?;
    let status = status_of(&table);
    let text = written(alloc, project, &whole, &table.rows, form)?;
    Ok(Answer::Whole(text, status))
}

// The report in one of its forms.
fn written(
    alloc: Global,
    project: &str,
    whole: &Whole,
    rows: &[Row],
    form: ReportForm,
) -> Result<Vec<u8>, Memory>
    requires { IsReady whole.now.project.development whole.now.table whole.now.list.items }
    ensures { IfOk result (λ text. (report : Report) × (map row_of report.items.items ≡ rows.now) ×
        (map parts_of report.inputs.items ≡ map parts_of_pair (files_read project.now whole.now.files)) ×
        IsMade whole.now.project.development report ×
        (map (λ s. s.name) report.strays.items ≡ stray_names whole.now.list.items whole.now.project.scripts) ×
        WritesReport form report text.items) }
{
    match report_of(alloc, project, whole, rows) {
        Ok(report) => form_text(alloc, &report, form),
        Err(Memory) => Err(Memory),
    }
}

// The report as a value.
fn report_of(alloc: Global, project: &str, whole: &Whole, rows: &[Row]) -> Result<Report, Memory>
    requires { IsReady whole.now.project.development whole.now.table whole.now.list.items }
    ensures items { IfOk result (λ report. map row_of report.items.items ≡ rows.now) }
    ensures inputs { IfOk result (λ report.
        map parts_of report.inputs.items ≡ map parts_of_pair (files_read project.now whole.now.files)) }
    ensures made { IfOk result (IsMade whole.now.project.development) }
    ensures strays { IfOk result (λ report.
        map (λ s. s.name) report.strays.items ≡ stray_names whole.now.list.items whole.now.project.scripts) }
{
    let shown = shown_texts(alloc, whole, rows)?;
    let files = files_of(alloc, project, whole)?;
    Ok(Report {
        version: VERSION,
        toolchain: TOOLCHAIN,
        claims: claims_of_reports(),
        machine: machine_name(alloc, &whole.project.development)?,
        inputs: inputs(alloc, &files)?,
        items: all_items(alloc, whole, rows, &shown)?,
        strays: strays(alloc, whole)?,
    })
}

fn form_text(alloc: Global, report: &Report, form: ReportForm) -> Result<Vec<u8>, Memory>
    ensures { IfOk result (λ text. WritesReport form report.now text.items) }
{
    match form {
        ReportForm::Html => html_page(alloc, report),
        ReportForm::Json => json_line(alloc, report),
        ReportForm::Text => report_text(alloc, report),
    }
}

fn json_line(alloc: Global, report: &Report) -> Result<Vec<u8>, Memory>
    ensures { IfOk result (λ text. WritesReport ReportForm.Json report.now text.items) }
{
    let mut text = json_text(alloc, report)?;
    text.push(b'\n')?;
    Ok(text)
}

// What is open of each row.
fn shown_texts(alloc: Global, whole: &Whole, rows: &[Row]) -> Result<Vec<Text>, Memory>
    requires { IsReady whole.now.project.development whole.now.table whole.now.list.items }
{
    let notes = notes_of(alloc, whole)?;
    let mut texts = Vec::new(alloc);
    for row in rows {
        texts.push(open_text(alloc, whole, &notes, row.name.as_bytes())?)?;
    }
    Ok(texts)
}

// What is open of an obligation; nothing of one that is settled.
fn open_text(alloc: Global, whole: &Whole, notes: &[Note], name: &[u8]) -> Result<Text, Memory>
    requires { IsReady whole.now.project.development whole.now.table whole.now.list.items }
{
    let Some(obligation) = obligation_named(&whole.list, name) else {
        return Ok(Text::from_bytes(Vec::new(alloc)));
    };
    let asked = Asked {
        dev: &whole.project.development,
        table: &whole.table,
        obligation,
        found: found(alloc, whole, name)?,
        notes,
        at: None,
    };
    let shown = goal_text(alloc, asked)?;
    if shown.is_open {
        return Ok(Text::from_bytes(shown.text));
    }
    Ok(Text::from_bytes(Vec::new(alloc)))
}

fn machine_name(alloc: Global, dev: &Development) -> Result<Text, Memory>
    ensures { IfOk result (λ name. name ≡ meant.machine_name dev.now.levels) }
{
    let name = first_name(alloc, &dev.levels)?;
    Ok(name)
}

// The name of the first level.
fn first_name(alloc: Global, levels: &[Level]) -> Result<Text, Memory>
    ensures { IfOk result (λ name. name ≡ meant.machine_name levels.now) }
{
    match levels.first() {
        Some(level) => level_name(alloc, level),
        None => Ok(Text::from_bytes(Vec::new(alloc))),
    }
}

fn level_name(alloc: Global, level: &Level) -> Result<Text, Memory>
    ensures { IfOk result (λ name. name ≡ level.now.name) }
{
    let name = level.name.copy(alloc)?;
    Ok(name)
}

// The files that were read: the project file, the components, the proof files.
fn files_of<'a>(alloc: Global, project: &'a str, whole: &'a Whole) -> Result<Vec<File<'a>>, Memory>
    ensures { IfOk result (λ files. map pair_of files.items ≡ files_read project.now whole.now.files) }
{
    let mut files = Vec::new(alloc);
    files.push(File {
        name: project.as_bytes(),
        text: &whole.files.text,
    })?;
    add_files(&mut files, &whole.files.components)?;
    add_files(&mut files, &whole.files.proofs)?;
    Ok(files)
}

fn add_files<'a>(files: &mut Vec<File<'a>>, texts: &'a [NamedText]) -> Result<(), Memory>
    ensures { OnOk result (map pair_of files.new.items ≡ map pair_of files.old.items ++ map file_of texts.now) }
{
    for file in texts {
        files.push(File {
            name: file.name.as_bytes(),
            text: &file.text,
        })?;
    }
    Ok(())
}
