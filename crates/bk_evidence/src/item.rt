//! Obligations with their origins and states.

ghost use Rattle.std.specs.Prelude.{◌≡◌, ◌<◌, ◌&&◌, ◌++◌, length, slice_index_or, decimal, map, IfOk, OnOk};
ghost use Rattle.bk_status.specs.Rows as meant;
ghost use Rattle.bk_report.specs.Table.{state_text};
ghost use Rattle.bk_evidence.specs.Items.{row_of, known_of};

use bk_io::{Memory, Text};
use bk_origins::{Component, Origin};
use bk_places::place_of;
use bk_status::{Row, State};
use itoa::Buffer;
use std::alloc::{AllocError, Global};

/// An obligation: its name and state as the status table has them, what it asks, and where it comes from.
#[derive(Drop)]
pub struct Item {
    pub name: Text,
    pub state: State,
    pub words: Text,
    /// The component's file, and the line and column in it.
    pub file: Text,
    pub line: usize,
    pub column: usize,
    /// How many rules its script has, and `file:line:column` of the script; None where no script has its name.
    pub script: Option<Script>,
    /// What is open of it, as text.
    pub shown: Text,
}

/// A script of an obligation.
#[derive(Drop)]
pub struct Script {
    pub rules: usize,
    pub place: Text,
}

/// What is known of the proof of an obligation.
#[derive(Drop)]
pub struct Proof {
    pub script: Option<Script>,
    /// What is open of it, as text.
    pub shown: Text,
}

impl Script {
    fn copy(&self, alloc: Global) -> Result<Script, Memory>
        ensures { IfOk result (λ copy. copy ≡ self.now) }
    {
        let place = self.place.copy(alloc)?;
        Ok(Script {
            rules: self.rules,
            place,
        })
    }
}

impl Proof {
    fn copy(&self, alloc: Global) -> Result<Proof, Memory>
        ensures { IfOk result (λ copy. copy ≡ self.now) }
    {
        let script = copy_of(alloc, &self.script)?;
        let shown = self.shown.copy(alloc)?;
        Ok(Proof { script, shown })
    }
}

fn copy_of(alloc: Global, script: &Option<Script>) -> Result<Option<Script>, Memory>
    ensures { IfOk result (λ copy. copy ≡ script.now) }
{
    match script {
        Some(script) => Ok(Some(script.copy(alloc)?)),
        None => Ok(None),
    }
}

/// An item for each row of a status table, with the origin and the proof of the same place in their lists.
pub fn items(
    alloc: Global,
    rows: &[Row],
    origins: &[Origin],
    components: &[Component<'_>],
    proofs: &[Proof],
) -> Result<Vec<Item>, Memory>
    ensures states { IfOk result (λ items. map row_of items.items ≡ rows.now) }
    ensures known { IfOk result (λ items. length proofs.now ≡ length rows.now → map known_of items.items ≡ proofs.now) }
{
    let mut items = Vec::new(alloc);
    for (index, row) in rows.iter().enumerate() {
        let asked = asked_of(alloc, origins.get(index), components)?;
        let proof = proof_at(alloc, proofs, index)?;
        items.push(item_of(alloc, row, asked, proof)?)?;
    }
    Ok(items)
}

fn item_of(alloc: Global, row: &Row, asked: Asked, proof: Proof) -> Result<Item, Memory>
    ensures state { IfOk result (λ i. row_of i ≡ row.now) }
    ensures known { IfOk result (λ i. known_of i ≡ proof) }
{
    let name = row.name.copy(alloc)?;
    let Asked {
        words,
        file,
        line,
        column,
    } = asked;
    let Proof { script, shown } = proof;
    Ok(Item {
        name,
        state: row.state,
        words,
        file,
        line,
        column,
        script,
        shown,
    })
}

// The proof at this place of a list; nothing is known past its end.
fn proof_at(alloc: Global, proofs: &[Proof], index: usize) -> Result<Proof, Memory>
    ensures { IfOk result (λ p. index < length proofs.now → p ≡ slice_index_or proofs.now index p) }
{
    if index < proofs.len() {
        let proof = proofs[index].copy(alloc)?;
        return Ok(proof);
    }
    Ok(Proof {
        script: None,
        shown: Text::from_bytes(Vec::new(alloc)),
    })
}

// What an obligation asks, and where it comes from.
#[derive(Drop)]
struct Asked {
    words: Text,
    file: Text,
    line: usize,
    column: usize,
}

fn asked_of(
    alloc: Global,
    origin: Option<&Origin>,
    components: &[Component<'_>],
) -> Result<Asked, Memory> {
    let Some(origin) = origin else {
        return Ok(nothing_asked(alloc));
    };
    let words = Text::from_bytes(Vec::from_slice(alloc, &origin.words)?);
    let Some(component) = components.get(origin.component) else {
        return Ok(nothing_asked(alloc));
    };
    let place = place_of(component.text, origin.at);
    Ok(Asked {
        words,
        file: Text::from_bytes(Vec::from_slice(alloc, component.file)?),
        line: place.line,
        column: place.column,
    })
}

fn nothing_asked(alloc: Global) -> Asked {
    Asked {
        words: Text::from_bytes(Vec::new(alloc)),
        file: Text::from_bytes(Vec::new(alloc)),
        line: 1,
        column: 1,
    }
}

/// Whether an obligation is obvious or proved.
pub(crate) fn is_settled(state: State) -> bool
    ensures { result ≡ meant.is_settled state }
{
    matches!(state, State::Obvious | State::Proved)
}

/// Whether an obligation is settled, where those are asked that are open.
pub(crate) fn is_left_out(item: &Item, is_open_only: bool) -> bool
    ensures { result ≡ (is_open_only && meant.is_settled item.now.state) }
{
    is_open_only && is_settled(item.state)
}

/// How far an obligation is proved, in words.
pub(crate) fn write_state(text: &mut Vec<u8>, state: State) -> Result<(), AllocError>
    ensures { OnOk result (text.new.items ≡ text.old.items ++ state_text state) }
{
    match state {
        State::Obvious => text.extend_from_slice(b"obvious"),
        State::Proved => text.extend_from_slice(b"proved"),
        State::NoScript => text.extend_from_slice(b"no script"),
        State::BadStep(rule) => write_count(text, b"bad step ", rule as usize),
        State::Open(left) => write_count(text, b"open ", left as usize),
        State::Extra(rule) => write_count(text, b"extra ", rule as usize),
    }
}

/// Writes a count after a word.
pub(crate) fn write_count(text: &mut Vec<u8>, before: &[u8], count: usize) -> Result<(), AllocError>
    ensures { OnOk result (text.new.items ≡ text.old.items ++ (before.now ++ decimal count)) }
{
    text.extend_from_slice(before)?;
    text.extend_from_slice(Buffer::new().format(count).as_bytes())?;
    Ok(())
}
