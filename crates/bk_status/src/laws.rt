//! What status tables are worth. Each law is the contract of a function that does nothing.

ghost use Rattle.bk_status.specs.Examples.{TallyNeeds, StepperNeeds, SwapNeeds};
ghost use Rattle.bk_status.specs.Laws.{StatesAreOne, TablesAreOne, ClosedTablesProve, ClosedTablesAreValid};
ghost use Rattle.bk_status.specs.Laws.{ProvedTablesAreClosed, ShownObligationsAreValid, ObviousObligationsAreValid};
ghost use Rattle.bk_status.specs.Laws.{ProvedObligationsAreValid, ProvedDevelopmentsAreCorrect};

/// A development has one table at most, since each of its obligations has one state at most.
pub fn tables_are_one()
    ensures states { StatesAreOne }
    ensures tables { TablesAreOne }
{}

/// A table without an open row says that each obligation is obvious or has a replayed proof, and so that each is valid.
pub fn closed_tables_prove()
    ensures proved { ClosedTablesProve }
    ensures valid { ClosedTablesAreValid }
{}

/// Where each obligation is so, the table has no open row.
pub fn proved_tables_are_closed()
    ensures { ProvedTablesAreClosed }
{}

/// Where each obligation is obvious or derived by rules, as where it has a replayed proof, each is valid, the machine
/// keeps its invariant, and each level carries the one above.
pub fn proved_obligations()
    ensures shown { ShownObligationsAreValid }
    ensures obvious { ObviousObligationsAreValid }
    ensures valid { ProvedObligationsAreValid }
    ensures correct { ProvedDevelopmentsAreCorrect }
{}

/// Which obligations need a proof: those of an adder, which has an input and a precondition, of a stepper, which has an IF, and of two numbers that
/// change places by `||`.
pub fn examples()
    ensures tally { TallyNeeds }
    ensures stepper { StepperNeeds }
    ensures swap { SwapNeeds }
{}
