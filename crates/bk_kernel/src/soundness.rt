//! Laws of the rules. Each is the contract of a function that does nothing.

ghost use Rattle.bk_kernel.specs.Next.{NextMeans};
ghost use Rattle.bk_kernel.specs.RuleLaws.{RulesAreFunctions, RulesAreSound, DerivedIsValid, DerivedWiderIsValid, SoundForAllSizes, OneVerdict};

/// What the rules are: each makes one list of sequents, and the sequent is valid where all of the list are.
pub fn rules()
    ensures functions { RulesAreFunctions }
    ensures sound { RulesAreSound }
{}

/// What is derived is valid, also where it is derived over a table with more variables, as the names of a script are.
pub fn derived_is_valid()
    ensures alone { DerivedIsValid }
    ensures wider { DerivedWiderIsValid }
{}

/// What is said of a list of rules and a sequent is one thing.
pub fn one_verdict()
    ensures { OneVerdict }
{}

/// A body at one more than its variable means at a number what the body means at the next one.
pub fn next_means()
    ensures { NextMeans }
{}

/// The same of validity for all sizes of the sets that have none.
pub fn sound_for_all_sizes()
    ensures { SoundForAllSizes }
{}
