//! The status table.

ghost use Rattle.std.specs.Prelude.{◌≡◌, map, OnOk, IfOk, IfErr};
ghost use Rattle.std.specs.List.{AllZip};
ghost use Rattle.std.specs.Option.{option_copied};
ghost use Rattle.bk_form.specs.Each.{Each};
ghost use Rattle.bk_dev.specs.Flattened.{flattened};
ghost use Rattle.bk_po.specs.Obligations.{obligations};
ghost use Rattle.bk_po.specs.Limits.{PassNoLimit, IsFaultOf};
ghost use Rattle.bk_status.specs.Rows as meant;
ghost use Rattle.bk_po.specs.Shown.{named_sequent};
ghost use Rattle.bk_status.specs.Rows.{IsRowOf, HasRows, ShowCorrect};
ghost use Rattle.bk_status.specs.Replayable.{IsReplayable};

use crate::named::NamedScripts;
use crate::replayed::state;
use crate::state::State;
use bk_dev::Development;
use bk_form::VarTable;
use bk_io::{Memory, Text};
use bk_p_proof::Scripts;
use bk_po::{Obligation, PoFault, obligation_table, obligations};
use std::alloc::Global;

/// An obligation's name, and how far it is proved.
#[derive(Drop)]
pub struct Row {
    pub name: Text,
    pub state: State,
}

/// One row for each obligation, in the order of the obligations.
#[derive(Drop)]
pub struct Table {
    pub rows: Vec<Row>,
}

impl Table {
    ghost use Rattle.bk_status.specs.Rows.{first_open};

    /// The first row that is neither obvious nor proved.
    pub fn first_open(&self) -> Option<&Row>
        ensures { option_copied result ≡ first_open self.now.rows.items }
    {
        self.rows.iter().find(|row| !is_settled(row.state))
    }
}

// Whether a row of this state needs no more work.
fn is_settled(state: State) -> bool
    ensures { result ≡ meant.is_settled state }
{
    matches!(state, State::Obvious | State::Proved)
}

/// The status table of a development: each obligation is obvious, or it is what the script of its name makes of it. A script
/// for no obligation is ignored. Where no row is open the development is correct.
pub fn status(alloc: Global, dev: &Development, scripts: &Scripts) -> Result<Table, PoFault>
    ensures rows { IfOk result (λ table. HasRows dev.now scripts.now table.rows.items) }
    ensures correct { IfOk result (λ table. ShowCorrect dev.now table.rows.items) }
    ensures within { OnOk result (PassNoLimit (obligations dev.now)) }
    ensures fault { IfErr result (IsFaultOf (obligations dev.now)) }
{
    dev.facts();
    let list = obligations(alloc, dev)?;
    let types = obligation_table(alloc, dev)?;
    let named = NamedScripts::new(alloc, scripts)?;
    let rows = rows_of(alloc, dev, &types, &named, list)?;
    Ok(Table { rows })
}

fn rows_of(
    alloc: Global,
    dev: &Development,
    types: &VarTable,
    named: &NamedScripts,
    list: Vec<Obligation>,
) -> Result<Vec<Row>, Memory>
    requires types { types.now ≡ (flattened dev.now).table }
    requires replayable { Each (λ o. IsReplayable types.now o.1) (map named_sequent list.items) }
    ensures { IfOk result (λ rows. AllZip (IsRowOf (flattened dev.now) named.now) (map named_sequent list.items) rows.items) }
{
    let mut rows = Vec::new(alloc);
    for obligation in list {
        rows.push(row_of(alloc, dev, types, named, obligation)?)?;
    }
    Ok(rows)
}

fn row_of(
    alloc: Global,
    dev: &Development,
    types: &VarTable,
    named: &NamedScripts,
    obligation: Obligation,
) -> Result<Row, Memory>
    requires types { types.now ≡ (flattened dev.now).table }
    requires replayable { IsReplayable types.now (named_sequent obligation).1 }
    ensures { IfOk result (IsRowOf (flattened dev.now) named.now (named_sequent obligation)) }
{
    let Obligation { name, sequent } = obligation;
    let state = state(alloc, dev, types, named, &name, sequent)?;
    Ok(Row { name, state })
}
