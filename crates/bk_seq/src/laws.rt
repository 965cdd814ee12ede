//! Laws of validity, and of places in formulas. Each is the contract of a function that does nothing.

ghost use Rattle.bk_seq.specs.Laws.{IsAssumed, Weakens, Contradicts, ValidityWidens, SplitKeepsValidity, SizesKeepSequents};
ghost use Rattle.bk_seq.specs.PathLaws.{PutStands, PutKeepsRole, PutKeepsMeaning, PartsType};

/// What every valid sequent allows.
pub fn validity()
    ensures assumed { IsAssumed }
    ensures weakens { Weakens }
    ensures contradicts { Contradicts }
{}

/// What stands at a path, and what another formula there changes.
pub fn places()
    ensures stands { PutStands }
    ensures role { PutKeepsRole }
    ensures meaning { PutKeepsMeaning }
    ensures parts { PartsType }
{}

/// A sequent is valid over a table exactly where it is valid over one with more variables or sets.
pub fn wider_tables()
    ensures { ValidityWidens }
{}

/// A goal that is taken apart keeps the sequent as valid as it was.
pub fn splits()
    ensures { SplitKeepsValidity }
{}

/// Validity for all sizes of the sets that have none: it is validity where each set has a size, and neither a wider table nor a
/// goal that is taken apart makes a difference.
pub fn sized_tables()
    ensures { SizesKeepSequents }
{}
