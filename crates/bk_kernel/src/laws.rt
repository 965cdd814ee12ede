//! The law of obvious sequents. It is the contract of a function that does nothing.

ghost use Rattle.bk_kernel.specs.Laws.{ObviousIsValid, ObviousForAllSizes};

/// An obvious sequent whose goal types is valid.
pub fn obvious_is_valid()
    ensures { ObviousIsValid }
{}

/// And so it is for all sizes of the sets that have none.
pub fn obvious_for_all_sizes()
    ensures { ObviousForAllSizes }
{}
