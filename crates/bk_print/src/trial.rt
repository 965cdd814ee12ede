// What becomes of a text as the only proof file.

ghost use Rattle.std.specs.Prelude.{◌≡◌};
ghost use Rattle.bk_print.specs.Found as meant;

/// What a text is for an obligation as its only proof file.
#[derive(Clone, Copy)]
pub(crate) enum Trial {
    /// It proves the obligation.
    Proves,
    /// It has too many tokens for a file, or too many rules for a script.
    TooLong,
    /// Too many brackets are open at one place, or a term is too high.
    TooHigh,
    /// It is read and does not prove it, or cannot be read otherwise.
    Fails,
}

/// That of a text which passes the limit with this number.
pub(crate) fn trial_past(number: u8) -> Trial
    ensures { result ≡ meant.trial_past number }
{
    if number == 2 || number == 8 {
        Trial::TooLong
    } else {
        Trial::TooHigh
    }
}
