//! Laws of pieces. Each is the contract of a function that does nothing.

ghost use Rattle.bk_io.specs.Laws.{PiecesTell};

/// What the pieces of a text that is put as one tell of it.
pub fn pieces()
    ensures { PiecesTell }
{}
