//! The status table: how far each obligation is proved, and how many are.

ghost use Rattle.std.specs.Prelude.{◌≡◌, ◌++◌, not, IfOk, OnOk};
ghost use Rattle.bk_status.specs.Rows.{is_settled};
ghost use Rattle.bk_report.specs.Table as texts;

use crate::numbers::write_count;
use bk_status::{Row, State};
use std::alloc::{AllocError, Global};

/// The text of a status table: a line for each row, and the sums.
pub fn table_text(alloc: Global, rows: &[Row]) -> Result<Vec<u8>, AllocError>
    ensures { IfOk result (λ text. text.items ≡ texts.table_text rows.now) }
{
    let mut text = Vec::new(alloc);
    for row in rows {
        write_row(&mut text, row)?;
    }
    write_sums(&mut text, rows)?;
    Ok(text)
}

fn write_row(text: &mut Vec<u8>, row: &Row) -> Result<(), AllocError>
    ensures { OnOk result (text.new.items ≡ text.old.items ++ texts.row_text row.now) }
{
    text.extend_from_slice(row.name.as_bytes())?;
    text.extend_from_slice(b" ")?;
    write_state(text, row.state)?;
    text.extend_from_slice(b"\n")?;
    Ok(())
}

// How far an obligation is proved, in words.
fn write_state(text: &mut Vec<u8>, state: State) -> Result<(), AllocError>
    ensures { OnOk result (text.new.items ≡ text.old.items ++ texts.state_text state) }
{
    match state {
        State::Obvious => text.extend_from_slice(b"obvious"),
        State::Proved => text.extend_from_slice(b"proved"),
        State::NoScript => text.extend_from_slice(b"no script"),
        State::BadStep(rule) => write_count(text, b"bad step ", rule as usize),
        State::Open(left) => write_count(text, b"open ", left as usize),
        State::Extra(rule) => write_count(text, b"extra ", rule as usize),
    }
}

// How many obligations there are, and how many are obvious, proved and neither.
fn write_sums(text: &mut Vec<u8>, rows: &[Row]) -> Result<(), AllocError>
    ensures { OnOk result (text.new.items ≡ text.old.items ++ texts.sums_text rows.now) }
{
    write_count(text, b"", rows.len())?;
    write_count(text, b" obligations: ", obvious_count(rows))?;
    write_count(text, b" obvious, ", proved_count(rows))?;
    write_count(text, b" proved, ", open_count(rows))?;
    text.extend_from_slice(b" open\n")?;
    Ok(())
}

fn obvious_count(rows: &[Row]) -> usize
    ensures { result ≡ texts.count_states texts.is_obvious_state rows.now }
{
    rows.iter().filter(|row| is_obvious(row.state)).count()
}

fn proved_count(rows: &[Row]) -> usize
    ensures { result ≡ texts.count_states texts.is_proved_state rows.now }
{
    rows.iter().filter(|row| is_proved(row.state)).count()
}

fn open_count(rows: &[Row]) -> usize
    ensures { result ≡ texts.count_states (λ state. not (is_settled state)) rows.now }
{
    rows.iter()
        .filter(|row| !(is_obvious(row.state) || is_proved(row.state)))
        .count()
}

fn is_obvious(state: State) -> bool
    ensures { result ≡ texts.is_obvious_state state }
{
    matches!(state, State::Obvious)
}

fn is_proved(state: State) -> bool
    ensures { result ≡ texts.is_proved_state state }
{
    matches!(state, State::Proved)
}
