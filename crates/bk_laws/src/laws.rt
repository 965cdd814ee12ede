//! That laws are true. Each is the contract of a function that does nothing.

ghost use Rattle.bk_laws.specs.Laws.{TableIsTrue, LeftAloneIsFalse};

/// Every instance of a table is true where each of its rows is.
pub fn table_is_true()
    ensures { TableIsTrue }
{}

/// The statement can fail: it is refuted for `P & Q` to `P`.
pub fn false_law_is_refuted()
    ensures { LeftAloneIsFalse }
{}
