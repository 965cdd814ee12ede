//! Laws of printed formulas. Each is the contract of a function that does nothing.

ghost use Rattle.bk_show.specs.Examples.{Examples, PremisesAreMet};
ghost use Rattle.bk_show.specs.Laws.{ShownReadsBack};

/// What is printed of a formula that types reads back as the same formula.
pub fn shown_reads_back()
    ensures { ShownReadsBack }
{}

/// Small cases, to be checked by hand.
pub fn examples()
    ensures texts { Examples }
    ensures premises { PremisesAreMet }
{}
