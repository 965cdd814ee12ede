//! Laws of closing and opening. Each is the contract of a function that does nothing.

ghost use Rattle.bk_bind.specs.Laws.{OpeningGivesBack, OpeningMeans, OpeningKeepsRole};

/// Opening a closed formula gives it back, and an opened body means what the body means under the values of the terms.
pub fn opening()
    ensures gives_back { OpeningGivesBack }
    ensures means { OpeningMeans }
    ensures role { OpeningKeepsRole }
{}
