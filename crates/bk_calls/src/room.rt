//! How many bytes the lines of an image take at most.
ghost use Rattle.std.specs.Prelude.{◌≡◌, [], length, IfSome, slice_index_or};
ghost use Rattle.bk_calls.specs.Room.{longest_of, longest_value, longest_given, longest_reply, longest_line};

use crate::transcript::separator;
use bk_code::{CellKind, Image, NameText, OpEntry, Parameter};

/// The longest number of 64 bits.
const LONGEST_NUMBER: &[u8] = b"-9223372036854775808";

/// The longest text after the name of what was called where it is not done.
const LONGEST_STOP: &[u8] = b" trapped Overflow at 4294967295\n";

/// The longest last line of a session.
const LONGEST_CLOSING: &[u8] = b"end 4294967295 calls, 18446744073709551615 steps\n";

// The bytes of the longest name.
fn longest_name(names: &[NameText]) -> usize
    ensures { result ≡ length (longest_of names.now) }
{
    let mut longest = 0;
    for name in names {
        longest = name.as_slice().len().max(longest);
    }
    longest
}

// The bytes of the longest element name of a set.
fn longest_element(image: &Image, set: u32) -> usize
    ensures { result ≡ length (longest_of (slice_index_or image.now.sets set [])) }
{
    match image.sets.as_slice().get(set as usize) {
        Some(names) => longest_name(names.as_slice()),
        None => 0,
    }
}

// The bytes of the longest text of a number in a cell of that kind.
fn value_room(image: &Image, kind: CellKind) -> usize
    ensures { result ≡ length (longest_value image.now kind) }
{
    match kind {
        CellKind::Integer | CellKind::Bool => LONGEST_NUMBER.len(),
        CellKind::Set(set) => LONGEST_NUMBER.len().max(longest_element(image, set)),
    }
}

// The bytes of the longest text of outputs; none where a `usize` can't hold their number.
fn outputs_room(image: &Image, outputs: &[Parameter]) -> Option<usize>
    ensures { IfSome result (λ room. room ≡ length (longest_given image.now outputs.now)) }
{
    let mut room = 0usize;
    for (i, output) in outputs.iter().enumerate() {
        room = room
            .checked_add(separator(i).len())?
            .checked_add(value_room(image, output.kind))?;
    }
    Some(room)
}

// The bytes of the longest line that answers a call of an operation; none where a `usize` can't hold their number.
fn reply_room(image: &Image, entry: &OpEntry) -> Option<usize>
    ensures { IfSome result (λ room. room ≡ length (longest_reply image.now entry.now)) }
{
    let given = outputs_room(image, entry.outputs.as_slice())?.checked_add(1)?;
    entry
        .name
        .as_slice()
        .len()
        .checked_add(given.max(LONGEST_STOP.len()))
}

/// The bytes of the longest line of an image, the last line of a session included; none where a `usize` can't hold their
/// number.
pub(crate) fn line_room(image: &Image) -> Option<usize>
    ensures { IfSome result (λ room. room ≡ length (longest_line image.now)) }
{
    let mut room = LONGEST_CLOSING
        .len()
        .max(b"initialisation".len() + LONGEST_STOP.len());
    for entry in image.ops.as_slice() {
        room = room.max(reply_room(image, entry)?);
    }
    Some(room)
}
