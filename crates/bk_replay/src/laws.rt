//! Laws of standings. Each is the contract of a function that does nothing.

ghost use Rattle.bk_replay.specs.Laws.{OpenIsOne, FurthestIsOne, VerdictIsOfStanding};

/// What rules leave open is one list, and rules go as far as they go.
pub fn standings_are_one()
    ensures left { OpenIsOne }
    ensures furthest { FurthestIsOne }
{}

/// What the kernel says of rules follows from how far they go: so what is shown of a script and its state never differ.
pub fn verdicts_are_of_standings()
    ensures { VerdictIsOfStanding }
{}
