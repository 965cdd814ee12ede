//! Laws of the conditions. Each is the contract of a function that does nothing.

ghost use Rattle.bk_wd.specs.Laws.{DefinedIsExact, CheckedIsExact, ConditionsArePredicates};
ghost use Rattle.bk_wd.specs.Examples.{WellDefinedExamples, CheckedExamples};

/// WD(F) is true exactly where F is defined.
pub fn well_defined()
    ensures { DefinedIsExact }
{}

/// Chk(E) is true exactly where E fits the machine.
pub fn executed()
    ensures { CheckedIsExact }
{}

/// Both are predicates.
pub fn predicates()
    ensures { ConditionsArePredicates }
{}

/// Small cases, to be checked by hand.
pub fn examples()
    ensures defined { WellDefinedExamples }
    ensures checked { CheckedExamples }
{}
