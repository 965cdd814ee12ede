//! The texts of laws, read from the table.

ghost use Rattle.std.specs.Prelude.{◌≡◌, IfSome};

use crate::table::laws_text;

/// A law in words.
#[derive(Clone, Copy)]
pub struct LawText {
    /// Its number: that after the letter G, 100 more of O, 200 more of S, 300 more of M.
    pub number: u16,
    pub name: &'static str,
    /// The letters of the terms that it takes, in order.
    pub picks: &'static str,
    pub count: usize,
    /// What it says.
    pub text: &'static str,
}

/// The text of the law with this number.
pub fn text_of(law: u16) -> Option<LawText>
    ensures { IfSome result (λ t. t.number ≡ law) }
{
    let mut rest = laws_text();
    for _ in 0..rest.len() {
        let (line, behind) = rest.split_once('\n')?;
        let text = law_of(line)?;
        if text.number == law {
            return Some(text);
        }
        rest = behind;
    }
    None
}

/// The text of the law with this name.
pub fn text_named(name: &[u8]) -> Option<LawText>
    ensures { IfSome result (λ t. t.name.now ≡ name.now) }
{
    let mut rest = laws_text();
    for _ in 0..rest.len() {
        let (line, behind) = rest.split_once('\n')?;
        let text = law_of(line)?;
        if text.name.as_bytes() == name {
            return Some(text);
        }
        rest = behind;
    }
    None
}

// The law of a line of the table: its number, its name and its picks in parentheses, and what it says.
fn law_of(line: &'static str) -> Option<LawText> {
    let (number, behind) = line.split_once(' ')?;
    let (name, behind) = behind.split_once('(')?;
    let (picks, text) = behind.split_once(") ")?;
    Some(LawText {
        number: number.parse::<u16>().ok()?,
        name,
        picks,
        count: count_of(picks),
        text,
    })
}

// How many letters there are, with commas between.
fn count_of(picks: &str) -> usize {
    if picks.is_empty() {
        return 0;
    }
    let mut count = 1usize;
    for byte in picks.as_bytes() {
        if *byte == b',' {
            count = count.saturating_add(1);
        }
    }
    count
}
