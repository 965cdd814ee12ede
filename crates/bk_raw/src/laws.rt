//! Laws of the grammar, as contracts of functions that do nothing.

ghost use Rattle.bk_raw.specs.Grammar.Laws.{TermsAreOne, SubstitutionsAreOne, ComponentsAreOne, ScriptsAreOne};
ghost use Rattle.bk_raw.specs.Grammar.Laws.{LongestIsOne, NoWordInside};
ghost use Rattle.bk_raw.specs.Grammar.Laws.{PlacesAreOne, FaultsExclude, ReadingTellsPlace, NoHeaderTellsPlace};
ghost use Rattle.bk_raw.specs.Grammar.Laws.{ScriptPlacesAreOne, ScriptFaultsExclude, ScriptsTellPlace};
ghost use Rattle.bk_raw.specs.Grammar.Laws.{DecidedIsOneOfBoth, OneOfBothHolds};
ghost use Rattle.bk_raw.specs.Grammar.Laws.{DecidedScriptsAreOneOfBoth, OneOfBothHoldsOfScripts};
ghost use Rattle.bk_raw.specs.Grammar.Texts.{TextsAreWritten, TextsAreRefused};

/// Two terms that are written as the same tokens are the same.
pub fn terms_are_one()
    ensures { TermsAreOne }
{}

/// Two substitutions that are written as the same tokens are the same.
pub fn substitutions_are_one()
    ensures { SubstitutionsAreOne }
{}

/// Two components that are written as the same tokens are the same.
pub fn components_are_one()
    ensures { ComponentsAreOne }
{}

/// Two proof files that are written as the same tokens are the same.
pub fn scripts_are_one()
    ensures { ScriptsAreOne }
{}

/// At most one substitution is the longest from a place.
pub fn longest_is_one()
    ensures { LongestIsOne }
{}

/// Inside a clause no word of a component stands outside of brackets and blocks.
pub fn no_word_inside()
    ensures { NoWordInside }
{}

/// As a component tokens have at most one place of fault, and at most one byte of fault.
pub fn places_are_one()
    ensures { PlacesAreOne }
{}

/// They have none where they are written as a component.
pub fn faults_exclude()
    ensures { FaultsExclude }
{}

/// Reading clause by clause, each as long as can be, tells the place.
pub fn reading_tells_place()
    ensures { ReadingTellsPlace }
{}

/// Where no header stands in front, the place is the first token.
pub fn no_header_tells_place()
    ensures { NoHeaderTellsPlace }
{}

/// As a proof file tokens have at most one place of fault, and at most one byte of fault.
pub fn script_places_are_one()
    ensures { ScriptPlacesAreOne }
{}

/// They have none where they are written as a proof file.
pub fn script_faults_exclude()
    ensures { ScriptFaultsExclude }
{}

/// Whole scripts, and the longest one but for its end after them, tell the place.
pub fn scripts_tell_place()
    ensures { ScriptsTellPlace }
{}

/// Tokens are written as a component or have a place of fault, where it is decided which fronts are whole and whether the
/// tokens are written so.
pub fn decided_is_one_of_both()
    ensures { DecidedIsOneOfBoth }
{}

/// It cannot be that tokens are written as no component and have no place of fault.
pub fn one_of_both_holds()
    ensures { OneOfBothHolds }
{}

/// Tokens are written as a proof file or have a place of fault, where it is decided which fronts are whole and whether the
/// tokens are written so.
pub fn decided_scripts_are_one_of_both()
    ensures { DecidedScriptsAreOneOfBoth }
{}

/// It cannot be that tokens are written as no proof file and have no place of fault.
pub fn one_of_both_holds_of_scripts()
    ensures { OneOfBothHoldsOfScripts }
{}

/// Some texts, with the trees that they are written for.
pub fn texts_are_written()
    ensures { TextsAreWritten }
{}

/// Some texts that are refused, with the bytes where they are at fault.
pub fn texts_are_refused()
    ensures { TextsAreRefused }
{}
