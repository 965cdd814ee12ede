//! The limits of an obligation's formulas.

ghost use Rattle.std.specs.Prelude.{◌↔◌, All, IsTrue};
ghost use Rattle.bk_bind.specs.Limits.{IsWithinLimits};

use crate::words::Words;
use bk_form::Form;
use bk_io::Memory;
use bk_limits::{GREATEST_HEIGHT, MOST_NODES};

// Whether the formula is within the limits.
fn is_within(form: &Form) -> bool
    ensures { IsTrue result ↔ IsWithinLimits form.now }
{
    form.size() <= MOST_NODES && form.depth() <= GREATEST_HEIGHT
}

/// Whether each of them is.
pub(crate) fn are_within(forms: &[Form]) -> bool
    ensures { IsTrue result ↔ All IsWithinLimits forms.now }
{
    for form in forms {
        if !is_within(form) {
            return false;
        }
    }
    true
}

/// Says which limits a formula passes, one or both.
pub(crate) fn say_limits(words: &mut Words<'_>) -> Result<(), Memory> {
    words.say(b"limit 6 (")?;
    words.natural(u128::from(MOST_NODES))?;
    words.say(b" nodes) or 13 (a height of ")?;
    words.natural(u128::from(GREATEST_HEIGHT))?;
    words.say(b")")
}
