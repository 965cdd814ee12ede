//! The parts of a script's line.
ghost use Rattle.std.specs.Prelude.{◌≡◌, position, nat_eq};
ghost use Rattle.std.specs.Option.{option_copied, option_map};
ghost use Rattle.bk_calls.specs.Reading as reading;

use crate::argument::is_name;
use crate::table::WordTable;

/// A text after the spaces that it starts with.
pub fn skip_spaces(text: &[u8]) -> &[u8]
    ensures { result.now ≡ reading.skip_spaces text.now }
{
    let mut rest = text;
    while let Some((b' ', behind)) = rest.split_first() {
        rest = behind;
    }
    rest
}

/// Whether a text is only spaces.
pub fn is_spaces(text: &[u8]) -> bool
    ensures { result ≡ reading.is_spaces text.now }
{
    skip_spaces(text).is_empty()
}

fn is_plain(byte: u8) -> bool
    ensures { result ≡ reading.is_plain byte }
{
    !(byte == b' ' || byte == b'(' || byte == b')' || byte == b',')
}

/// The longest front of a text that is all of bytes of a name or an argument, and what stands after it.
pub fn split_word(text: &[u8]) -> (&[u8], &[u8])
    ensures front { result.0.now ≡ reading.front text.now }
    ensures behind { result.1.now ≡ reading.behind text.now }
{
    let end = text
        .iter()
        .position(|b| !is_plain(*b))
        .unwrap_or(text.len());
    text.split_at(end)
}

// What stands before the place of a byte, or all where there is none, and what stands after it.
fn cut_at(text: &[u8], place: Option<usize>, byte: u8) -> (&[u8], Option<&[u8]>)
    requires { place ≡ position (λ b. nat_eq b byte) text.now }
    ensures before { result.0.now ≡ reading.before_byte byte text.now }
    ensures after { option_copied result.1 ≡ reading.after_byte byte text.now }
{
    match place {
        Some(place) => (&text[..place], Some(&text[place + 1..])),
        None => (text, None),
    }
}

/// What stands before the first such byte, or all where there is none, and what stands after it.
pub fn cut(text: &[u8], byte: u8) -> (&[u8], Option<&[u8]>)
    ensures before { result.0.now ≡ reading.before_byte byte text.now }
    ensures after { option_copied result.1 ≡ reading.after_byte byte text.now }
{
    let place = text.iter().position(|b| *b == byte);
    cut_at(text, place, byte)
}

// Whether only spaces stand after a parenthesis that closes.
fn is_closing(rest: Option<&[u8]>) -> bool
    ensures { result ≡ reading.closing (option_copied rest.entry) }
{
    match rest {
        Some(rest) => is_spaces(rest),
        None => false,
    }
}

// What stands in parentheses; nothing where there are none.
fn inside_of(list: &[u8]) -> Option<&[u8]>
    ensures { option_copied result ≡ reading.inside_of list.now }
{
    let Some((first, behind)) = list.split_first() else {
        return Some(list);
    };
    let (inside, rest) = cut(behind, b')');
    if *first == b'(' && is_closing(rest) {
        Some(inside)
    } else {
        None
    }
}

/// The name that a line calls, and what stands in the parentheses after it.
pub fn call_parts<'a>(words: &WordTable, line: &'a [u8]) -> Option<(&'a [u8], &'a [u8])>
    ensures { option_map (λ parts. (parts.0.now, parts.1.now)) result ≡ reading.call_parts line.now }
{
    let (name, behind) = split_word(skip_spaces(line));
    let inside = inside_of(skip_spaces(behind))?;
    if is_name(words, name) {
        Some((name, inside))
    } else {
        None
    }
}
