// The identifier, the digits or the sign that a text begins with.

ghost use Rattle.std.specs.Prelude.{◌≡◌, ◌≤◌, false, ℕ, length, take, take_while, MatchOption, Some};
ghost use Rattle.bk_lex.specs.Lexis.{is_digit, sign_number};
ghost use Rattle.bk_lex.specs.Parts.{IsFirstNumeral, IsFirstDollar, BeginsNoDollar, ContinuesUpTo, IsFirstIdentifier};
ghost use Rattle.bk_lex.specs.Parts.{BeginsNoIdentifier, IsFirstSign, BeginsNoSign, NoSignOfLength, begins};

use crate::table::Tables;
use unicode_ident::{is_xid_continue, is_xid_start};

/// The identifier that the text begins with, and the rest.
pub(crate) fn first_identifier(text: &str) -> Option<(&[u8], &str)>
    ensures { MatchOption result (BeginsNoIdentifier text.now)
        (λ pair. IsFirstIdentifier text.now pair.0.now pair.1.now) }
{
    if !is_xid_start(text.chars().next()?) {
        return None;
    }
    let (word, rest) = text.split_at(identifier_length(text));
    Some((word.as_bytes(), rest))
}

/// How many bytes the first characters take that continue an identifier.
fn identifier_length(text: &str) -> usize
    ensures { ContinuesUpTo text.now result }
{
    let Some(end) = text.find(|c: char| !is_xid_continue(c)) else {
        return text.len();
    };
    end
}

/// The digits that the text begins with, and the rest.
pub(crate) fn first_numeral(text: &str) -> Option<(&[u8], &str)>
    ensures { MatchOption result (begins is_digit text.now ≡ false)
        (λ pair. IsFirstNumeral text.now pair.0.now pair.1.now) }
{
    if !is_digit(*text.as_bytes().first()?) {
        return None;
    }
    let (digits, rest) = text.split_at(digits_in_front(text.as_bytes()));
    Some((digits.as_bytes(), rest))
}

fn digits_in_front(text: &[u8]) -> usize
    ensures { result ≡ length (take_while is_digit text.now) }
{
    text.iter().take_while(|c| is_digit(**c)).count()
}

fn is_digit(c: u8) -> bool
    ensures { result ≡ is_digit c }
{
    c.is_ascii_digit()
}

/// The digits after the `$` that the text begins with, and the rest.
pub(crate) fn first_dollar(text: &str) -> Option<(&[u8], &str)>
    ensures { MatchOption result (BeginsNoDollar text.now) (λ pair. IsFirstDollar text.now pair.0.now pair.1.now) }
{
    first_numeral(text.strip_prefix("$")?)
}

/// The number of the sign that the text begins with, the longest that fits, and the rest.
pub(crate) fn first_sign<'a>(tables: &Tables, text: &'a str) -> Option<(u16, &'a str)>
    ensures { MatchOption result (BeginsNoSign text.now) (λ pair. IsFirstSign pair.0 text.now pair.1.now) }
{
    let mut length = 4;
    while length > 0 {
        if let Some(op) = sign_of_length(tables, text.as_bytes(), length) {
            let (_, rest) = text.split_at(length);
            return Some((op, rest));
        }
        length -= 1;
    }
    None
}

/// The number of the sign that the first bytes are.
fn sign_of_length(tables: &Tables, text: &[u8], count: usize) -> Option<u16>
    ensures { MatchOption result (NoSignOfLength count text.now)
        (λ op. (count ≤ length text.now) × (sign_number (take count text.now) ≡ Some op)) }
{
    tables.sign_number(text.get(..count)?)
}
