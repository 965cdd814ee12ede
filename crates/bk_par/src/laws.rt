//! Laws of the rewriting of `||`. Each is the contract of a function that does nothing.

ghost use Rattle.bk_par.specs.Laws.{FlatIsFlat, FlatDoesTheSame};

/// No `||` is left in the rewritten, and it types where the substitution types.
pub fn flat()
    ensures { FlatIsFlat }
{}

/// It runs as the substitution runs, and ends where it ends.
pub fn does_the_same()
    ensures { FlatDoesTheSame }
{}
