// What lines of bytes and numbers say.

use crate::stop::Stop;
use std::alloc::Global;

/// Whether a line says bytes of a file or of the wanted output.
pub fn says_bytes(line: &str) -> bool {
    line.starts_with('|')
        || line.starts_with('\\')
        || line.starts_with("x ")
        || line.starts_with("times ")
}

/// Adds the bytes that a line says: after `|` a text and a line end, after `\` a text, after `x` bytes by two hexadecimal digits
/// each, and after `times` a number and one of these, so often.
pub fn add_bytes(alloc: Global, line: &str, bytes: &mut Vec<u8>) -> Result<(), Stop> {
    match line.strip_prefix("times ") {
        Some(rest) => add_repeated(alloc, rest, bytes),
        None => add_once(line, bytes),
    }
}

fn add_repeated(alloc: Global, rest: &str, bytes: &mut Vec<u8>) -> Result<(), Stop> {
    let Some((count, line)) = rest.split_once(' ') else {
        return Err(Stop::Line);
    };
    let count = number(count)?;
    let mut once = Vec::new(alloc);
    add_once(line, &mut once)?;
    for _ in 0..count {
        bytes.extend_from_slice(&once)?;
    }
    Ok(())
}

fn add_once(line: &str, bytes: &mut Vec<u8>) -> Result<(), Stop> {
    if let Some(text) = line.strip_prefix('|') {
        bytes.extend_from_slice(text.as_bytes())?;
        bytes.push(b'\n')?;
        return Ok(());
    }
    if let Some(text) = line.strip_prefix('\\') {
        bytes.extend_from_slice(text.as_bytes())?;
        return Ok(());
    }
    match line.strip_prefix("x ") {
        Some(digits) => add_digits(digits, bytes),
        None => Err(Stop::Line),
    }
}

fn add_digits(digits: &str, bytes: &mut Vec<u8>) -> Result<(), Stop> {
    for word in digits.split(' ').filter(|word| !word.is_empty()) {
        bytes.push(byte(word)?)?;
    }
    Ok(())
}

fn byte(word: &str) -> Result<u8, Stop> {
    if word.len() != 2 || !word.bytes().all(|digit| digit.is_ascii_hexdigit()) {
        return Err(Stop::Line);
    }
    u8::from_str_radix(word, 16).map_err(|_| Stop::Line)
}

/// A number by decimal digits.
pub fn number(text: &str) -> Result<usize, Stop> {
    if !text.bytes().all(|digit| digit.is_ascii_digit()) {
        return Err(Stop::Line);
    }
    text.parse::<usize>().map_err(|_| Stop::Line)
}

/// Whether a case may have this name: lowercase letters, digits and `_`.
pub fn is_name(text: &str) -> bool {
    !text.is_empty()
        && text.bytes().all(|byte| byte.is_ascii_lowercase()
            || byte.is_ascii_digit()
            || byte == b'_')
}

/// What stands before and after the first place of a part in bytes.
pub fn parted<'a>(bytes: &'a [u8], part: &[u8]) -> Option<(&'a [u8], &'a [u8])> {
    for start in 0..=bytes.len() {
        let (before, rest) = bytes.split_at(start);
        if let Some(after) = rest.strip_prefix(part) {
            return Some((before, after));
        }
    }
    None
}

/// The bytes with each place of a text, which is not empty, replaced. The text must occur.
pub fn replaced(alloc: Global, bytes: &[u8], from: &str, to: &str) -> Result<Vec<u8>, Stop> {
    let mut made = Vec::new(alloc);
    let mut rest = bytes;
    // A place has a byte at least, so there are no more places than bytes.
    for _ in 0..bytes.len() {
        let Some((before, after)) = parted(rest, from.as_bytes()) else {
            break;
        };
        made.extend_from_slice(before)?;
        made.extend_from_slice(to.as_bytes())?;
        rest = after;
    }
    if rest.len() == bytes.len() {
        return Err(Stop::Absent);
    }
    made.extend_from_slice(rest)?;
    Ok(made)
}
