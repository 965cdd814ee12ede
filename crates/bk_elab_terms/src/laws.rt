//! Laws of faults, as contracts of functions that do nothing.

ghost use Rattle.bk_elab_terms.specs.Laws.{BlameIsFirst, BlameJoins};

/// Which fault is told.
pub fn blame_is_first()
    ensures first { BlameIsFirst }
    ensures joins { BlameJoins }
{}
