//! Reports as JSON (RFC 8259).

ghost use Rattle.std.specs.Prelude.{◌≡◌, ◌≤◌, ◌++◌, Some, codes, map, IfOk, OnOk};
ghost use Rattle.serde_json.specs.Data.{depth, string, put as with_member};
ghost use Rattle.serde_json.specs.Read.{read, max_depth};
ghost use Rattle.serde_json.specs.View.{view, members_view};
ghost use Rattle.bk_report.specs.Table.{state_text};
ghost use Rattle.bk_evidence.specs.Json.{text_data, count_data, script_data, place_members, item_data, asked_data, items_data};
ghost use Rattle.bk_evidence.specs.Json.{input_data, inputs_data, nearest_data, stray_data, strays_data, list_data, sums_data, kinds_data, claims_data};
ghost use Rattle.bk_evidence.specs.Json.{about_members, listed_members, report_data};

use crate::claim::Claims;
use crate::item::{Item, Script, is_left_out, write_state};
use crate::report::{Input, Report, Stray};
use crate::sums::{Sums, sums_of, sums_with};
use bk_io::{Memory, Text};
use bk_origins::Concern;
use bk_status::State;
use serde_json::{Map, Value, put};
use std::alloc::Global;

/// The report as JSON on one line. It reads back as the data that it was written of.
pub fn json_text(alloc: Global, report: &Report) -> Result<Vec<u8>, Memory>
    ensures { IfOk result (λ text. read text.items ≡ Some (report_data report.now)) }
{
    let value = report_value(alloc, report)?;
    value_text(alloc, &value)
}

/// The obligations, or those that are open, and the scripts for none, on one line.
pub fn list_json(
    alloc: Global,
    items: &[Item],
    strays: &[Stray],
    is_open_only: bool,
) -> Result<Vec<u8>, Memory>
    ensures { IfOk result (λ text. read text.items ≡ Some (list_data is_open_only items.now strays.now)) }
{
    let value = list_value(alloc, items, strays, is_open_only)?;
    value_text(alloc, &value)
}

fn list_value(
    alloc: Global,
    items: &[Item],
    strays: &[Stray],
    is_open_only: bool,
) -> Result<Value, Memory>
    ensures { IfOk result (λ v. view v ≡ list_data is_open_only items.now strays.now) }
{
    let mut map = Map::new(alloc);
    let items = items_value(alloc, items, is_open_only)?;
    put(&mut map, alloc, "obligations", items)?;
    let strays = strays_value(alloc, strays)?;
    put(&mut map, alloc, "scripts_for_no_obligation", strays)?;
    Ok(Value::Object(map))
}

// A value on one line.
fn value_text(alloc: Global, value: &Value) -> Result<Vec<u8>, Memory>
    requires { depth (view value.now) ≤ max_depth }
    ensures { IfOk result (λ text. read text.items ≡ Some (view value.now)) }
{
    Ok(value.to_vec(alloc)?)
}

fn report_value(alloc: Global, report: &Report) -> Result<Value, Memory>
    ensures { IfOk result (λ v. view v ≡ report_data report.now) }
{
    let mut map = listed_map(alloc, report)?;
    put_sums(alloc, &mut map, "sums", sums_of(&report.items))?;
    let kinds = kinds_value(alloc, &report.items)?;
    put(&mut map, alloc, "sums_by_kind", kinds)?;
    let claims = claims_value(alloc, report.claims)?;
    put(&mut map, alloc, "claims", claims)?;
    Ok(Value::Object(map))
}

// What the report is of, the files, the obligations, and the scripts for none.
fn listed_map(alloc: Global, report: &Report) -> Result<Map<String, Value>, Memory>
    ensures { IfOk result (λ map. members_view map.entries ≡ listed_members report.now) }
{
    let mut map = about_map(alloc, report)?;
    let inputs = inputs_value(alloc, &report.inputs)?;
    put(&mut map, alloc, "inputs", inputs)?;
    let items = items_value(alloc, &report.items, false)?;
    put(&mut map, alloc, "obligations", items)?;
    let strays = strays_value(alloc, &report.strays)?;
    put(&mut map, alloc, "scripts_for_no_obligation", strays)?;
    Ok(map)
}

// Who wrote the report, and what it is of.
fn about_map(alloc: Global, report: &Report) -> Result<Map<String, Value>, Memory>
    ensures { IfOk result (λ map. members_view map.entries ≡ about_members report.now) }
{
    let mut map = Map::new(alloc);
    put_str(alloc, &mut map, "version", report.version)?;
    put_str(alloc, &mut map, "toolchain", report.toolchain)?;
    put_text(alloc, &mut map, "machine", &report.machine)?;
    Ok(map)
}

fn inputs_value(alloc: Global, inputs: &[Input]) -> Result<Value, Memory>
    ensures { IfOk result (λ v. view v ≡ inputs_data inputs.now) }
{
    let mut list = Vec::new(alloc);
    for input in inputs {
        list.push(input_value(alloc, input)?)?;
    }
    Ok(Value::Array(list))
}

fn input_value(alloc: Global, input: &Input) -> Result<Value, Memory>
    ensures { IfOk result (λ v. view v ≡ input_data input.now) }
{
    let mut map = Map::new(alloc);
    put_text(alloc, &mut map, "name", &input.name)?;
    put_count(alloc, &mut map, "bytes", input.length)?;
    put_str(alloc, &mut map, "sha256", input.digest.as_str())?;
    Ok(Value::Object(map))
}

fn items_value(alloc: Global, items: &[Item], is_open_only: bool) -> Result<Value, Memory>
    ensures { IfOk result (λ v. view v ≡ items_data is_open_only items.now) }
{
    let mut list = Vec::new(alloc);
    for item in items {
        push_if_asked(alloc, &mut list, item, is_open_only)?;
    }
    Ok(Value::Array(list))
}

fn push_if_asked(
    alloc: Global,
    list: &mut Vec<Value>,
    item: &Item,
    is_open_only: bool,
) -> Result<(), Memory>
    ensures { OnOk result (map view list.new.items ≡ map view list.old.items ++ asked_data is_open_only item.now) }
{
    if is_left_out(item, is_open_only) {
        return Ok(());
    }
    list.push(item_value(alloc, item)?)?;
    Ok(())
}

fn item_value(alloc: Global, item: &Item) -> Result<Value, Memory>
    ensures { IfOk result (λ v. view v ≡ item_data item.now) }
{
    let mut map = place_map(alloc, item)?;
    put_text(alloc, &mut map, "name", &item.name)?;
    put_text(alloc, &mut map, "asks", &item.words)?;
    put_state(alloc, &mut map, item.state)?;
    put_script(alloc, &mut map, &item.script)?;
    Ok(Value::Object(map))
}

// Where an obligation comes from.
fn place_map(alloc: Global, item: &Item) -> Result<Map<String, Value>, Memory>
    ensures { IfOk result (λ map. members_view map.entries ≡ place_members item.now) }
{
    let mut map = Map::new(alloc);
    put_text(alloc, &mut map, "file", &item.file)?;
    put_count(alloc, &mut map, "line", item.line)?;
    put_count(alloc, &mut map, "column", item.column)?;
    Ok(map)
}

#[tactic(auto, using(crate::proofs::Views::view_null))]
fn script_value(alloc: Global, script: &Option<Script>) -> Result<Value, Memory>
    ensures { IfOk result (λ v. view v ≡ script_data script.now) }
{
    match script {
        Some(script) => script_object(alloc, script),
        None => Ok(Value::Null),
    }
}

fn script_object(alloc: Global, script: &Script) -> Result<Value, Memory>
    ensures { IfOk result (λ v. view v ≡ script_data (Some script.now)) }
{
    let mut map = Map::new(alloc);
    put_count(alloc, &mut map, "rules", script.rules)?;
    put_text(alloc, &mut map, "place", &script.place)?;
    Ok(Value::Object(map))
}

fn strays_value(alloc: Global, strays: &[Stray]) -> Result<Value, Memory>
    ensures { IfOk result (λ v. view v ≡ strays_data strays.now) }
{
    let mut list = Vec::new(alloc);
    for stray in strays {
        list.push(stray_value(alloc, stray)?)?;
    }
    Ok(Value::Array(list))
}

fn stray_value(alloc: Global, stray: &Stray) -> Result<Value, Memory>
    ensures { IfOk result (λ v. view v ≡ stray_data stray.now) }
{
    let mut map = Map::new(alloc);
    put_text(alloc, &mut map, "name", &stray.name)?;
    let nearest = nearest_value(alloc, &stray.nearest)?;
    put(&mut map, alloc, "nearest", nearest)?;
    Ok(Value::Object(map))
}

#[tactic(auto, using(crate::proofs::Views::view_null))]
fn nearest_value(alloc: Global, nearest: &Option<Text>) -> Result<Value, Memory>
    ensures { IfOk result (λ v. view v ≡ nearest_data nearest.now) }
{
    match nearest {
        Some(name) => text_value(alloc, name.as_bytes()),
        None => Ok(Value::Null),
    }
}

fn sums_value(alloc: Global, sums: Sums) -> Result<Value, Memory>
    ensures { IfOk result (λ v. view v ≡ sums_data sums) }
{
    let mut map = Map::new(alloc);
    put_count(alloc, &mut map, "obligations", sums.obligations)?;
    put_count(alloc, &mut map, "obvious", sums.obvious)?;
    put_count(alloc, &mut map, "proved", sums.proved)?;
    put_count(alloc, &mut map, "open", sums.left)?;
    Ok(Value::Object(map))
}

// The sums of each kind.
fn kinds_value(alloc: Global, items: &[Item]) -> Result<Value, Memory>
    ensures { IfOk result (λ v. view v ≡ kinds_data items.now) }
{
    let mut map = Map::new(alloc);
    put_sums(
        alloc,
        &mut map,
        "initialisation",
        sums_with(items, Concern::Initialisation),
    )?;
    put_sums(
        alloc,
        &mut map,
        "operations",
        sums_with(items, Concern::Operation),
    )?;
    put_sums(
        alloc,
        &mut map,
        "assertions",
        sums_with(items, Concern::Assertion),
    )?;
    put_sums(alloc, &mut map, "values", sums_with(items, Concern::Values))?;
    put_sums(
        alloc,
        &mut map,
        "definedness",
        sums_with(items, Concern::Definedness),
    )?;
    put_sums(alloc, &mut map, "others", sums_with(items, Concern::Other))?;
    Ok(Value::Object(map))
}

fn claims_value(alloc: Global, claims: Claims) -> Result<Value, Memory>
    ensures { IfOk result (λ v. view v ≡ claims_data claims) }
{
    let mut map = Map::new(alloc);
    put_str(alloc, &mut map, "proved", claims.proved)?;
    put_str(alloc, &mut map, "trusted", claims.trusted)?;
    put_str(alloc, &mut map, "not_claimed", claims.not_claimed)?;
    Ok(Value::Object(map))
}

// ---- members
fn put_state(alloc: Global, map: &mut Map<String, Value>, state: State) -> Result<(), Memory>
    ensures { OnOk result (members_view map.new.entries ≡
        with_member (codes "state") (text_data (state_text state)) (members_view map.old.entries)) }
{
    let mut text = Vec::new(alloc);
    write_state(&mut text, state)?;
    let value = text_value(alloc, &text)?;
    put(map, alloc, "state", value)?;
    Ok(())
}

fn put_script(
    alloc: Global,
    map: &mut Map<String, Value>,
    script: &Option<Script>,
) -> Result<(), Memory>
    ensures { OnOk result (members_view map.new.entries ≡
        with_member (codes "script") (script_data script.now) (members_view map.old.entries)) }
{
    let value = script_value(alloc, script)?;
    put(map, alloc, "script", value)?;
    Ok(())
}

fn put_sums(
    alloc: Global,
    map: &mut Map<String, Value>,
    key: &str,
    sums: Sums,
) -> Result<(), Memory>
    ensures { OnOk result (members_view map.new.entries ≡ with_member key.now (sums_data sums) (members_view map.old.entries)) }
{
    let value = sums_value(alloc, sums)?;
    put(map, alloc, key, value)?;
    Ok(())
}

// Bytes as text; what is no UTF-8 stands as U+FFFD.
#[tactic(auto, using(crate::proofs::Views::view_text))]
fn text_value(alloc: Global, bytes: &[u8]) -> Result<Value, Memory>
    ensures { IfOk result (λ v. view v ≡ text_data bytes.now) }
{
    Ok(Value::String(String::from_utf8_lossy(alloc, bytes)?))
}

fn put_text(
    alloc: Global,
    map: &mut Map<String, Value>,
    key: &str,
    text: &Text,
) -> Result<(), Memory>
    ensures { OnOk result (members_view map.new.entries ≡ with_member key.now (text_data text.now) (members_view map.old.entries)) }
{
    let value = text_value(alloc, text.as_bytes())?;
    put(map, alloc, key, value)?;
    Ok(())
}

#[tactic(auto, using(crate::proofs::Views::view_text))]
fn put_str(alloc: Global, map: &mut Map<String, Value>, key: &str, text: &str) -> Result<(), Memory>
    ensures { OnOk result (members_view map.new.entries ≡ with_member key.now (string text.now) (members_view map.old.entries)) }
{
    let value = Value::String(String::from_str(alloc, text)?);
    put(map, alloc, key, value)?;
    Ok(())
}

fn put_count(
    alloc: Global,
    map: &mut Map<String, Value>,
    key: &str,
    count: usize,
) -> Result<(), Memory>
    ensures { OnOk result (members_view map.new.entries ≡ with_member key.now (count_data count) (members_view map.old.entries)) }
{
    let value = Value::from(count);
    put(map, alloc, key, value)?;
    Ok(())
}
