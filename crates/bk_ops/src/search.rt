//! The search of a table.

ghost use Rattle.std.specs.Prelude.{◌≡◌};
ghost use Rattle.bk_ops.specs.Rows.{op_of};

use crate::row::OpRow;

/// The number of the first row with the text. Takes no memory.
pub fn find<const N: usize>(rows: &[OpRow; N], text: &[u8]) -> Option<u16>
    ensures { result ≡ op_of rows.now text.now }
{
    let row = rows.iter().find(|row| text == row.text())?;
    Some(row.op)
}
