//! What the definitions imply. Each law is the contract of a function that does nothing.

ghost use Rattle.bk_evidence.specs.Html.{EscapedIsBare};

/// No byte of an escaped text is read as a mark of HTML.
pub fn escaped_texts_are_bare()
    ensures { EscapedIsBare }
{}
