//! Lines and columns.

ghost use Rattle.std.specs.Prelude.{◌≡◌, ◌+◌, ◌<◌, cond, nat_eq, length, take, drop, slice_index};
ghost use Rattle.bk_places.specs.Places as meant;

/// A place in a text. Lines and columns count from 1; a column is a character.
#[derive(Clone, Copy, PartialEq, Eq, Debug)]
pub struct Place {
    pub line: usize,
    pub column: usize,
}

/// The line and the column of a byte, counted from 0. Past the text it is the place after its end.
pub fn place_of(text: &[u8], at: usize) -> Place
    ensures line { result.line ≡ meant.line_of text.now at }
    ensures column { result.column ≡ meant.column_of text.now at }
{
    let front = front_of(text, at);
    Place {
        line: line_ends(front) + 1,
        column: characters(last_line(front)) + 1,
    }
}

// The bytes before a place.
fn front_of(text: &[u8], at: usize) -> &[u8]
    ensures { result.now ≡ take at text.now }
{
    if at < text.len() { &text[..at] } else { text }
}

// How many lines end in a text.
fn line_ends(text: &[u8]) -> usize
    ensures { result ≡ meant.line_ends text.now }
{
    text.iter().filter(|byte| **byte == b'\n').count()
}

// How many characters a text of UTF-8 has.
fn characters(text: &[u8]) -> usize
    ensures { result ≡ meant.characters text.now }
{
    text.iter().filter(|byte| begins_character(**byte)).count()
}

// Whether a byte is not a further byte of a character.
fn begins_character(byte: u8) -> bool
    ensures { result ≡ meant.begins_character byte }
{
    byte < 0x80 || byte >= 0xc0
}

// What stands after the last line end.
fn last_line(text: &[u8]) -> &[u8]
    ensures { result.now ≡ meant.last_line text.now }
{
    let mut line = text;
    for index in 0..text.len() {
        line = line_with(text, line, index);
    }
    line
}

// What stands after the last line end up to this byte, where the line before it begins there.
fn line_with<'a>(text: &'a [u8], line: &'a [u8], index: usize) -> &'a [u8]
    requires { index < length text.now }
    ensures { result.now ≡ cond (nat_eq (slice_index text.now index) 10) (drop (index + 1) text.now) line.now }
{
    if text[index] == b'\n' {
        &text[index + 1..]
    } else {
        line
    }
}
