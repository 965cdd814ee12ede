//! `list`.

ghost use Rattle.std.specs.Prelude.{◌≡◌, ◌⊎◌, ◌++◌, List, [], ◌∷◌, Some, true, map, IfOk, IfErr, OnOk};
ghost use Rattle.bk_io.specs.Counts.{HasCause};
ghost use Rattle.bk_io.specs.Files.{Files};
ghost use Rattle.bk_status.specs.Rows.{first_open};
ghost use Rattle.bk_cli.specs.Tasks.{status_task};
ghost use Rattle.bk_verbs.specs.Causes.{IsOfReading};
ghost use Rattle.bk_verbs.specs.Stops.{IsOutside, StopsTask};
ghost use Rattle.bk_verbs.specs.declared.stop.Stop.TheVariants.{ReadFault};
ghost use Rattle.bk_proof_words.specs.declared.task.Task.TheVariants.{List as ListTask};
ghost use Rattle.bk_proof_program.specs.Answers.{IsAnswer, IsEnd};
ghost use Rattle.bk_proof_program.specs.Said.{IsToldAnswer};
ghost use Rattle.bk_evidence.specs.Items.{row_of};
ghost use Rattle.bk_proof_program.specs.Settled as meant;
ghost use Rattle.bk_proof_program.specs.Told.{WritesList, stray_names};

use crate::answer::Answer;
use crate::goal::nearest_name;
use crate::project::{Whole, found, obligation_named, raw_components, read_whole};
use bk_evidence::{Item, Proof, Script, Stray, items, list_json, list_text};
use bk_io::{Memory, Shelf, Text};
use bk_origins::{Component, Origin, origins};
use bk_places::place_of;
use bk_raw::{RawComponent, RawScript};
use bk_status::{Row, Table, name_text};
use bk_verbs::proof::table_of;
use bk_verbs::{Status, Stop};
use itoa::Buffer;
use std::alloc::Global;

/// The obligations of a project.
pub(crate) fn list_answer<H: Shelf>(
    alloc: Global,
    project: &str,
    is_open_only: bool,
    as_json: bool,
    shelf: &mut H,
) -> Result<Answer, Stop>
    ensures told { IfOk result (λ a. (files : Files) → H.files shelf.old ≡ Some files →
        IsToldAnswer files (ListTask project.entry is_open_only as_json) a) }
    ensures ok { IfOk result IsAnswer }
    ensures cause { IfErr result (λ stop. (files : Files) → H.files shelf.old ≡ Some files →
        IsOutside stop ⊎ StopsTask files (status_task project.now) stop) }
    ensures reading { IfErr result IsOfReading }
    ensures failed { HasCause ReadFault (H.faults shelf.old) (H.faults shelf.new) result }
{
    let whole = read_whole(alloc, project, shelf)?;
    let table = table_of(alloc, project, &whole.project)?;
    let status = status_of(&table);
    let text = rows_text(alloc, &whole, &table.rows, is_open_only, as_json)?;
    Ok(Answer::Whole(text, status))
}

/// Done where no row is open.
pub(crate) fn status_of(table: &Table) -> Status
    ensures value { result ≡ meant.status_of (first_open table.now.rows.items) }
    ensures ends { IsEnd result }
{
    match table.first_open() {
        Some(_) => Status::Unproved,
        None => Status::Done,
    }
}

// The rows of the status table as lines or as JSON.
fn rows_text(
    alloc: Global,
    whole: &Whole,
    rows: &[Row],
    is_open_only: bool,
    as_json: bool,
) -> Result<Vec<u8>, Memory>
    ensures { IfOk result (λ text. (items : List Item) × (strays : List Stray) × (map row_of items ≡ rows.now) ×
        (map (λ s. s.name) strays ≡ stray_names whole.now.list.items whole.now.project.scripts) ×
        WritesList as_json is_open_only items strays text.items) }
{
    let all = all_items(alloc, whole, rows, &[])?;
    let others = strays(alloc, whole)?;
    let text = items_text(alloc, &all, &others, is_open_only, as_json)?;
    Ok(text)
}

fn items_text(
    alloc: Global,
    all: &[Item],
    strays: &[Stray],
    is_open_only: bool,
    as_json: bool,
) -> Result<Vec<u8>, Memory>
    ensures { IfOk result (λ text. WritesList as_json is_open_only all.now strays.now text.items) }
{
    if as_json {
        json_line(alloc, all, strays, is_open_only)
    } else {
        list_text(alloc, all, strays, is_open_only)
    }
}

// The obligations and the scripts for none as a line of JSON.
fn json_line(
    alloc: Global,
    all: &[Item],
    strays: &[Stray],
    is_open_only: bool,
) -> Result<Vec<u8>, Memory>
    ensures { IfOk result (λ text. WritesList true is_open_only all.now strays.now text.items) }
{
    let mut text = list_json(alloc, all, strays, is_open_only)?;
    text.push(b'\n')?;
    Ok(text)
}

/// An item for each row of the status table, with its script, and with the text of the same place in this list.
pub(crate) fn all_items(
    alloc: Global,
    whole: &Whole,
    rows: &[Row],
    shown: &[Text],
) -> Result<Vec<Item>, Memory>
    ensures { IfOk result (λ items. map row_of items.items ≡ rows.now) }
{
    let raws = raw_components(alloc, &whole.files.components)?;
    let components = components_of(alloc, whole, &raws)?;
    let origins = all_origins(alloc, whole, &components)?;
    let proofs = proofs_of(alloc, whole, rows, shown)?;
    items(alloc, rows, &origins, &components, &proofs)
}

fn all_origins(
    alloc: Global,
    whole: &Whole,
    components: &[Component<'_>],
) -> Result<Vec<Origin>, Memory> {
    origins(alloc, &whole.project.development, components, &whole.list)
}

// The components with their texts.
fn components_of<'a>(
    alloc: Global,
    whole: &'a Whole,
    raws: &'a [RawComponent],
) -> Result<Vec<Component<'a>>, Memory> {
    let mut components = Vec::new(alloc);
    for (index, raw) in raws.iter().enumerate() {
        let Some(file) = whole.files.components.get(index) else {
            return Ok(components);
        };
        components.push(Component {
            file: file.name.as_bytes(),
            text: &file.text,
            raw,
        })?;
    }
    Ok(components)
}

// What is known of the proof of each row.
fn proofs_of(
    alloc: Global,
    whole: &Whole,
    rows: &[Row],
    shown: &[Text],
) -> Result<Vec<Proof>, Memory> {
    let mut proofs = Vec::new(alloc);
    for (index, row) in rows.iter().enumerate() {
        let script = script_of(alloc, whole, row.name.as_bytes())?;
        let shown = shown_at(alloc, shown, index)?;
        proofs.push(Proof { script, shown })?;
    }
    Ok(proofs)
}

fn shown_at(alloc: Global, shown: &[Text], index: usize) -> Result<Text, Memory> {
    match shown.get(index) {
        Some(text) => text.copy(alloc),
        None => Ok(Text::from_bytes(Vec::new(alloc))),
    }
}

// The script of an obligation.
fn script_of(alloc: Global, whole: &Whole, name: &[u8]) -> Result<Option<Script>, Memory> {
    let Some(found) = found(alloc, whole, name)? else {
        return Ok(None);
    };
    let script = found.script;
    Ok(Some(Script {
        rules: script.rules.len(),
        place: place_text(alloc, found.file, found.text, script.name_at)?,
    }))
}

// `Tally.prf:1:7`.
fn place_text(alloc: Global, file: &[u8], text: &[u8], at: usize) -> Result<Text, Memory> {
    let place = place_of(text, at);
    let mut out = Vec::from_slice(alloc, file)?;
    out.extend_from_slice(b":")?;
    out.extend_from_slice(Buffer::new().format(place.line).as_bytes())?;
    out.extend_from_slice(b":")?;
    out.extend_from_slice(Buffer::new().format(place.column).as_bytes())?;
    Ok(Text::from_bytes(out))
}

/// The scripts that belong to no obligation.
pub(crate) fn strays(alloc: Global, whole: &Whole) -> Result<Vec<Stray>, Memory>
    ensures { IfOk result (λ all. map (λ s. s.name) all.items ≡ stray_names whole.now.list.items whole.now.project.scripts) }
{
    let scripts = whole.project.scripts.all();
    let mut strays = Vec::new(alloc);
    for script in scripts {
        add_stray(alloc, &mut strays, whole, script)?;
    }
    Ok(strays)
}

// The script, unless it belongs to an obligation.
fn add_stray(
    alloc: Global,
    strays: &mut Vec<Stray>,
    whole: &Whole,
    script: &RawScript,
) -> Result<(), Memory>
    ensures { OnOk result (map (λ s. s.name) strays.new.items ≡
        map (λ s. s.name) strays.old.items ++ stray_names whole.now.list.items (script.now ∷ [])) }
{
    let name = name_text(alloc, &script.name)?;
    match obligation_named(&whole.list, &name) {
        Some(_) => Ok(()),
        None => {
            strays.push(stray_of(alloc, whole, name)?)?;
            Ok(())
        }
    }
}

// A script with this name, and the obligation's name that is most like it.
fn stray_of(alloc: Global, whole: &Whole, name: Vec<u8>) -> Result<Stray, Memory>
    ensures { IfOk result (λ s. s.name ≡ name.items) }
{
    let nearest = match nearest_name(alloc, &name, &whole.list)? {
        Some(near) => Some(Text::from_bytes(Vec::from_slice(alloc, near)?)),
        None => None,
    };
    Ok(Stray {
        name: Text::from_bytes(name),
        nearest,
    })
}
