//! Laws of substitutions. Each is the contract of a function that does nothing.

ghost use Rattle.bk_gsl.specs.Laws.{ChangesOnlyWrites, KeepsTypes, PreconditionMeans, Swaps, PutsBack, CountsDown};
ghost use Rattle.bk_gsl.specs.Laws.{NeverEnds, WideningKeepsRuns, ReadDecides, AvoidedDoesNotMatter};

/// What a run changes, and what types the variables have after it.
pub fn runs()
    ensures writes { ChangesOnlyWrites }
    ensures types { KeepsTypes }
{}

/// A precondition changes no run, and nothing ends where it is false.
pub fn precondition_means()
    ensures { PreconditionMeans }
{}

/// Small cases, to be checked by hand.
pub fn examples()
    ensures swap { Swaps }
    ensures local { PutsBack }
    ensures count_down { CountsDown }
    ensures forever { NeverEnds }
{}

/// Over a table with more variables or sets a substitution that types runs, ends and is clean as before.
pub fn wider_tables()
    ensures { WideningKeepsRuns }
{}

/// What a substitution reads decides what it runs to, whether it ends and whether it is clean.
pub fn read_decides()
    ensures { ReadDecides }
{}

/// Variables that a substitution avoids do not matter to what it runs to, whether it ends and whether it is clean.
pub fn avoided()
    ensures { AvoidedDoesNotMatter }
{}
