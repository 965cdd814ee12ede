//! What the cells of an implementation hold, and how a unit is translated. Each law is the contract of a function that does nothing.

ghost use Rattle.bk_b0.specs.Laws.{CellsAreTyped, UnitsAreTranslated};

/// The constants' values are of their types, and arrays have cells and the types of their indices.
pub fn lawful_cells()
    ensures { CellsAreTyped }
{}

/// The image of a development's executable part is its translation.
pub fn units_are_translated()
    ensures { UnitsAreTranslated }
{}
