//! Laws of what terms read as, as contracts of functions that do nothing.

ghost use Rattle.bk_raw.specs.Meaning.ReadingLaws.{ReadingsAreRight, ReadingsSpeak, FaultsAreSilent, ReadingsNameVisible};
ghost use Rattle.bk_raw.specs.Meaning.ReadingLaws.{ScopesAgree, FormulasType, FormulaOrFault, TokensReadOnce};
ghost use Rattle.bk_raw.specs.Meaning.Rewritings.{Rewritings};
ghost use Rattle.bk_raw.specs.Meaning.GivesTakes.{GivesAndTakes};
ghost use Rattle.bk_raw.specs.Meaning.ConjunctsInOrder.{ConjunctsInOrder};
ghost use Rattle.bk_raw.specs.Errors.FormFaults.{FormTellsFaults};
ghost use Rattle.bk_raw.specs.Meaning.KeptReading.{ReadingsAreKept};
ghost use Rattle.bk_raw.specs.Meaning.ToldNames.{ToldNamesAreSeen};
ghost use Rattle.bk_raw.specs.Meaning.ReadingExamples.{ReadingExamples};

/// What is told of a term is the role of its formula.
pub fn readings_are_right()
    ensures { ReadingsAreRight }
{}

/// A term without a fault has a formula, and one with a fault has none.
pub fn readings_speak()
    ensures speak { ReadingsSpeak }
    ensures silent { FaultsAreSilent }
{}

/// What is told of a term names only what its names stand for.
pub fn readings_name_visible()
    ensures { ReadingsNameVisible }
{}

/// The names in scope of a term by itself.
pub fn scopes_agree()
    ensures { ScopesAgree }
{}

/// A term by itself is a formula that types, or it has a fault, and never both.
pub fn formulas()
    ensures typed { FormulasType }
    ensures one_of_both { FormulaOrFault }
{}

/// Tokens are at most one formula in a scope.
pub fn tokens_read_once()
    ensures { TokensReadOnce }
{}

/// Terms that are rewritten as they are read turn out to be what they are rewritten to.
pub fn rewritings()
    ensures { Rewritings }
{}

/// What each form of a term gives and takes.
pub fn gives_and_takes()
    ensures { GivesAndTakes }
{}

/// Bound names get types and ranges by the first conjunct that fits.
pub fn conjuncts_in_order()
    ensures { ConjunctsInOrder }
{}

/// All faults of a term but those of types are told by its form.
pub fn form_tells_faults()
    ensures { FormTellsFaults }
{}

/// What a term reads as depends on nothing but what is found of the names that stand in it.
pub fn readings_are_kept()
    ensures { ReadingsAreKept }
{}

/// What is told of a term was made of names that are in scope and have types.
pub fn told_names_are_seen()
    ensures { ToldNamesAreSeen }
{}

/// Small cases, to be checked by hand.
pub fn reading_examples()
    ensures { ReadingExamples }
{}
