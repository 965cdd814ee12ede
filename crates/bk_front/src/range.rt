//! The range that digits say.

ghost use Rattle.std.specs.Prelude.{◌≡◌, ◌↔◌, ◌<◌, ◌≤◌, ◌^◌, ℤ, pos, ◌≤ℤ◌, IsTrue, MatchOption};
ghost use Rattle.std.specs.Str.Parse.{IsNumeral, digits_value, without_leading_plus};
ghost use Rattle.bk_limits.specs.declared.TheConstants.{GREATEST_MAXINT as GREATEST};
ghost use Rattle.bk_front.specs.ProjectFile.{first_or, IsRangeText, max_in};

use bk_limits::GREATEST_MAXINT;

/// MAXINT that a text says: digits without a sign, for a number that it may be.
pub(crate) fn max_in(text: &[u8]) -> Option<i64>
    ensures { MatchOption result (IsRangeText text.now → ⊥) (λ max. IsRangeText text.now × (max ≡ max_in text.now)) }
{
    let number = number_in(text)?;
    max_of(number)
}

// The number that digits without a sign stand for, where 64 bits hold it.
fn number_in(text: &[u8]) -> Option<u64>
    ensures { MatchOption result (IsNumeral 10 text.now → digits_value 10 text.now < 2 ^ 64 → ⊥)
        (λ number. IsNumeral 10 text.now × (number ≡ digits_value 10 text.now)) }
{
    if begins_with_plus(text) {
        return None;
    }
    match std::str::from_utf8(text) {
        Ok(digits) => parsed(digits),
        Err(_) => None,
    }
}

fn begins_with_plus(text: &[u8]) -> bool
    ensures { IsTrue result ↔ (first_or 0 text.now ≡ 43) }
{
    !text.is_empty() && text[0] == b'+'
}

// The number that digits stand for, where 64 bits hold it. A plus may stand in front.
fn parsed(text: &str) -> Option<u64>
    ensures { MatchOption result (IsNumeral 10 (without_leading_plus text.now) → digits_value 10 (without_leading_plus text.now) < 2 ^ 64 → ⊥)
        (λ number. IsNumeral 10 (without_leading_plus text.now) × (number ≡ digits_value 10 (without_leading_plus text.now))) }
{
    match text.parse::<u64>() {
        Ok(number) => Some(number),
        Err(_) => None,
    }
}

// The number, where MAXINT may be it.
fn max_of(number: u64) -> Option<i64>
    ensures { MatchOption result ((1 ≤ number) × (pos number ≤ℤ GREATEST) → ⊥) (λ max. (1 ≤ number) × (pos number ≤ℤ GREATEST) × (max ≡ pos number)) }
{
    if !is_max(number) {
        return None;
    }
    Some(number as i64)
}

fn is_max(number: u64) -> bool
    ensures { IsTrue result ↔ ((1 ≤ number) × (pos number ≤ℤ GREATEST)) }
{
    1 <= number && number <= GREATEST_MAXINT as u64
}
