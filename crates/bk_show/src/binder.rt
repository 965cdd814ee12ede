// The text of the variables that a quantifier binds.

ghost use Rattle.std.specs.Prelude.{◌≡◌, ◌+◌, ◌<◌, ◌^◌, ◌++◌, suc, length, OnOk};
ghost use Rattle.bk_form.specs.declared.token.TokenKind.TheVariants.{BoundName};
ghost use Rattle.bk_show.specs.Items.{text_of, kind_text};
ghost use Rattle.bk_show.specs.Shown.{bounds_items, comma_at};

use crate::ty::write_type;
use bk_form::{Ty, VarTable};
use bk_io::Memory;
use itoa::Buffer;

// What stands before the entry of a list with that index.
pub(crate) fn comma(index: usize) -> &'static [u8]
    ensures { result.now ≡ comma_at index }
{
    if index == 0 { b"" } else { b"," }
}

// Writes the number of a bound variable after what is written.
pub(crate) fn write_bound(out: &mut Vec<u8>, number: u128) -> Result<(), Memory>
    ensures { OnOk result (out.new.items ≡ out.old.items ++ kind_text (BoundName number)) }
{
    out.extend_from_slice(b"$")?;
    out.extend_from_slice(Buffer::new().format(number).as_bytes())?;
    Ok(())
}

// Writes the variables that a quantifier binds under so many others, each with its type.
#[tactic(auto, using(crate::proofs::Written::bounds))]
pub(crate) fn write_bounds(
    out: &mut Vec<u8>,
    table: &VarTable,
    around: u128,
    types: &[Ty],
) -> Result<(), Memory>
    requires { around + length types.now < 2 ^ 128 }
    ensures { OnOk result (out.new.items ≡
        out.old.items ++ text_of (bounds_items table.now (suc around) types.now)) }
{
    for (index, ty) in types.iter().enumerate() {
        out.extend_from_slice(comma(index))?;
        write_bound(out, around + 1 + index as u128)?;
        out.extend_from_slice(b":")?;
        write_type(out, table, ty)?;
    }
    Ok(())
}
