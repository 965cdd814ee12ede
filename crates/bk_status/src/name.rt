//! The texts of names.

ghost use Rattle.std.specs.Prelude.{◌≡◌, ◌++◌, ◌∷◌, IfOk, OnOk};
ghost use Rattle.bk_scripts.specs.Sight.{part_text};
ghost use Rattle.bk_status.specs.States as meant;

use bk_io::Memory;
use bk_raw::NamePart;
use itoa::Buffer;
use std::alloc::Global;

/// The text of a name: its parts, with dots between.
pub fn name_text(alloc: Global, name: &[NamePart]) -> Result<Vec<u8>, Memory>
    ensures { IfOk result (λ text. text.items ≡ meant.name_text name.now) }
{
    match name {
        [] => Ok(Vec::new(alloc)),
        [first, rest @ ..] => text_of(alloc, first, rest),
    }
}

// The text of a name with this first part.
fn text_of(alloc: Global, first: &NamePart, rest: &[NamePart]) -> Result<Vec<u8>, Memory>
    ensures { IfOk result (λ text. text.items ≡ meant.name_text (first.now ∷ rest.now)) }
{
    let mut text = Vec::new(alloc);
    add_part(&mut text, first)?;
    for part in rest {
        text.push(b'.')?;
        add_part(&mut text, part)?;
    }
    Ok(text)
}

// Puts the letters of a part after the text.
fn add_part(text: &mut Vec<u8>, part: &NamePart) -> Result<(), Memory>
    ensures { OnOk result (text.new.items ≡ text.old.items ++ part_text part.now) }
{
    match part {
        NamePart::Letters(letters) => {
            text.extend_from_slice(letters.as_bytes())?;
        }
        NamePart::Numeral(number) => {
            let mut buffer = Buffer::new();
            text.extend_from_slice(buffer.format(*number).as_bytes())?;
        }
    }
    Ok(())
}
