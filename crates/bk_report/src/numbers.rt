//! Numbers in the texts that the program writes.

ghost use Rattle.std.specs.Prelude.{◌≡◌, ◌++◌, decimal, OnOk};
ghost use Rattle.std.specs.Fmt.{signed_decimal};

use itoa::Buffer;
use std::alloc::AllocError;

/// Writes a count after a word.
pub(crate) fn write_count(text: &mut Vec<u8>, before: &[u8], count: usize) -> Result<(), AllocError>
    ensures { OnOk result (text.new.items ≡ text.old.items ++ (before.now ++ decimal count)) }
{
    text.extend_from_slice(before)?;
    text.extend_from_slice(Buffer::new().format(count).as_bytes())?;
    Ok(())
}

/// Writes a whole number after a word.
pub(crate) fn write_number(text: &mut Vec<u8>, before: &[u8], number: i64) -> Result<(), AllocError>
    ensures { OnOk result (text.new.items ≡ text.old.items ++ (before.now ++ signed_decimal number)) }
{
    text.extend_from_slice(before)?;
    text.extend_from_slice(Buffer::new().format(number).as_bytes())?;
    Ok(())
}
