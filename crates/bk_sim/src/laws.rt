//! What follows a machine, and what does not. Each law is the contract of a function that does nothing.

ghost use Rattle.bk_sim.specs.Statements.{StatementsFollow, OperationsFollow, OpeningsFollow, ReturnsEnd};
ghost use Rattle.bk_sim.specs.Laws.{CallsDecide, LawfulFollows, EqualFollows, B0Follows, B0Ends, CounterIsCarried};
ghost use Rattle.bk_sim.specs.Laws.{TranslationFollows, CounterEnds, NineDoesNotFollow, FollowedWhereFlattened};
ghost use Rattle.bk_sim.specs.Laws.{ExchangeIsFollowed, WrongCodesDoNotFollow, TowerIsFollowed};

/// Code follows a machine where it opens well and each call goes well.
pub fn calls_decide()
    ensures { CallsDecide }
{}

/// The translation of a lawful development in B0 follows its machine, where its obligations' claims hold.
pub fn lawful_follows()
    ensures { LawfulFollows }
{}

/// So does that of every development in B0.
pub fn b0_follows()
    ensures { B0Follows }
{}

/// Where the claims hold, what has no loop ends within its code.
pub fn b0_ends()
    ensures { B0Ends }
{}

/// A counter, to be checked by hand.
pub fn counter()
    ensures carried { CounterIsCarried }
    ensures translation { TranslationFollows }
    ensures ends { CounterEnds }
    ensures nine { NineDoesNotFollow }
{}

/// Whatever follows the flattened development follows the development, where no `||` stands in the last level.
pub fn flat_developments()
    ensures { FollowedWhereFlattened }
{}

/// A machine with `||` whose implementation fills and reads an array, has a local and a loop, to be checked by hand.
pub fn exchange()
    ensures { ExchangeIsFollowed }
{}

/// Three wrong codes for a local and a loop.
pub fn wrong_codes()
    ensures { WrongCodesDoNotFollow }
{}

/// An implementation below an implementation, to be checked by hand.
pub fn tower()
    ensures { TowerIsFollowed }
{}

/// Code follows a machine also where the last level carries the one above it only from equal values.
pub fn equal_follows()
    ensures { EqualFollows }
{}

/// The code of a statement in B0 follows it, wherever it stands.
pub fn statements_follow()
    ensures { StatementsFollow }
{}

/// So does that of each operation and of the initialisation of a last level in B0, up to its return.
pub fn bodies_follow()
    ensures operations { OperationsFollow }
    ensures openings { OpeningsFollow }
{}

/// Such a call is done with some fuel, and without loops with as much as its code is long.
pub fn returns_end()
    ensures { ReturnsEnd }
{}
