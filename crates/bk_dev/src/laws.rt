//! What holds of developments, and what a small machine reaches. Each law is the contract of a function that does nothing.

ghost use Rattle.bk_dev.specs.Laws.{CounterIsDevelopment, ReachesTen, AnswersTen, LegalWhere, FlattenedIsLawful};
ghost use Rattle.bk_dev.specs.Laws.{FlattenedRuns, FlattenedKeepsCells, FlattenedStaysInB0, CallsClimb};
ghost use Rattle.bk_dev.specs.Laws.{OpeningsClimb, SizesKeepDevelopments, SizesHold, AreNotCarried};

/// A counter, to be checked by hand.
pub fn counter()
    ensures is_development { CounterIsDevelopment }
    ensures reaches { ReachesTen }
    ensures answers { AnswersTen }
    ensures legal { LegalWhere }
{}

/// The flattened of a development is lawful and without `||`, what it runs the development runs, and it is in B0 where the development is.
pub fn flat_developments()
    ensures lawful { FlattenedIsLawful }
    ensures runs { FlattenedRuns }
    ensures cells { FlattenedKeepsCells }
    ensures in_b0 { FlattenedStaysInB0 }
{}

/// Two developments whose implementations do not carry their machines.
pub fn not_carried()
    ensures { AreNotCarried }
{}

/// Where the levels carry, runs of the last level's bodies and of its initialisation are runs of the machine's.
pub fn last_level()
    ensures calls { CallsClimb }
    ensures openings { OpeningsClimb }
{}

/// A development stays one whatever sizes its deferred sets get, and what is said of the sizes is true.
pub fn set_sizes()
    ensures developments { SizesKeepDevelopments }
    ensures hold { SizesHold }
{}
