//! The table that a development's obligations speak of.

ghost use Rattle.std.specs.Prelude.{◌≡◌, IfOk};
ghost use Rattle.bk_dev.specs.Flattened.{flattened};

use crate::flattening::flattened;
use bk_dev::Development;
use bk_form::VarTable;
use bk_io::Memory;
use std::alloc::Global;

/// The table over which the formulas of a development's obligations type: its own, with an entry after for each copy that flattening makes.
pub fn obligation_table(alloc: Global, dev: &Development) -> Result<VarTable, Memory>
    ensures { IfOk result (λ table. table ≡ (flattened dev.now).table) }
{
    let flat = flattened(alloc, dev)?;
    Ok(flat.table)
}
