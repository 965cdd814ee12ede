// Terms with one part and with two: what comes of their parts.

ghost use Rattle.std.specs.Prelude.{◌≡◌, IfOk};
ghost use Rattle.bk_raw.specs.Meaning.Outcome.{Reading};
ghost use Rattle.bk_elab_terms.specs.Forms.{one_reading, two_reading};
ghost use Rattle.bk_elab_terms.specs.Shown.{IsRead};

use crate::outcome::Step;
use crate::part::{
    application_of, composition_of, image_of, infix_of, inverse_of, negative_of, pair_of, word_of,
};
use bk_io::Memory;
use bk_raw::{InfixOp, RawTerm, WordOp};
use std::alloc::Global;

/// A form of terms with one part.
#[derive(Clone, Copy)]
pub enum OnePart {
    Word(WordOp),
    Negative,
    Inverse,
}

/// A form of terms with two parts.
#[derive(Clone, Copy)]
pub enum TwoParts {
    Infix(InfixOp),
    Image,
    Apply,
    Composition,
    Pair,
}

// What a term with one part reads as at a byte, where the part was read.
pub(crate) fn with_part(
    alloc: Global,
    form: OnePart,
    at: usize,
    part: &RawTerm,
    read: Step,
) -> Result<Step, Memory>
    ensures { IfOk result (λ s. (r : Reading) → IsRead read r → IsRead s (one_reading form at part.now r)) }
{
    match form {
        OnePart::Word(op) => word_of(alloc, op, at, part, read),
        OnePart::Negative => negative_of(alloc, part, read),
        OnePart::Inverse => inverse_of(alloc, part, read),
    }
}

// What a term with two parts reads as at a byte, where both were read.
pub(crate) fn with_parts(
    alloc: Global,
    form: TwoParts,
    at: usize,
    left: &RawTerm,
    right: &RawTerm,
    one: Step,
    other: Step,
) -> Result<Step, Memory>
    ensures { IfOk result (λ s. (r t : Reading) → IsRead one r → IsRead other t →
        IsRead s (two_reading form at left.now right.now r t)) }
{
    match form {
        TwoParts::Infix(op) => infix_of(alloc, op, at, left, right, one, other),
        TwoParts::Image => image_of(alloc, left, right, one, other),
        TwoParts::Apply => application_of(alloc, left, right, one, other),
        TwoParts::Composition => composition_of(alloc, at, left, right, one, other),
        TwoParts::Pair => pair_of(alloc, left, right, one, other),
    }
}
