//! Laws of the definitions, as contracts of functions that do nothing.
ghost use Rattle.bk_code.specs.CellValues.{StandsForOne};
ghost use Rattle.bk_code.specs.Laws.{StoresPushed, EndsAtReturn, IsOutOfFuelBelow, IsTrapOutOfFuel, StaysDone, StaysTrapped};
ghost use Rattle.bk_code.specs.Laws.{HasOneEnd, IsNeverStuck, KeepsFitting, HasSomeEnd, IsFirstFitting, IsCallFitting};
ghost use Rattle.bk_code.specs.Laws.{HasOneSession, HasSomeSession, LoadableIsChecked, RefusesDeadStore};

/// A Push with a Store after it writes a cell and leaves the stack alone.
pub fn pushes_store()
    ensures { StoresPushed }
{}

/// A call ends with the step of its first Ret, for want of fuel before it, and a trap takes no step.
pub fn ends_are_exact()
    ensures at_return { EndsAtReturn }
    ensures out_of_fuel { IsOutOfFuelBelow }
    ensures trap { IsTrapOutOfFuel }
{}

/// More fuel changes no end but that for want of fuel.
pub fn ends_stay()
    ensures done { StaysDone }
    ensures trapped { StaysTrapped }
{}

/// A call has one end at most, and a session tells one thing at most.
pub fn ends_are_unique()
    ensures end { HasOneEnd }
    ensures session { HasOneSession }
{}

/// A checked image is never stuck: its calls end and its sessions tell something, whatever the fuel.
pub fn checked_images_are_safe()
    ensures never_stuck { IsNeverStuck }
    ensures keeps { KeepsFitting }
    ensures first_start { IsFirstFitting }
    ensures call_start { IsCallFitting }
    ensures end { HasSomeEnd }
    ensures session { HasSomeSession }
{}

/// A number in a cell stands for one value of the cell's kind.
pub fn numbers_stand_for_values()
    ensures { StandsForOne }
{}

/// What the loader accepts is checked, and in code that nothing reaches it asks for depths too.
pub fn loader_checks()
    ensures checked { LoadableIsChecked }
    ensures dead_code { RefusesDeadStore }
{}
