//! That the laws are true. It is the contract of a function that does nothing.

ghost use Rattle.bk_laws.specs.Laws.{IsTrueTable};
ghost use Rattle.bk_laws_log.specs.Rows.{rows};

/// Every instance of every law is true.
pub fn laws_are_true()
    ensures { IsTrueTable rows }
{}
