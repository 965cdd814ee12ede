//! What the obligations of a development are, and what they are worth. Each law is the contract of a function that does nothing.

ghost use Rattle.bk_po.specs.Examples.{TallyAsks};
ghost use Rattle.bk_po.specs.WrittenLists.{OverHasThese, SwapHasThese, FillHasThese};
ghost use Rattle.bk_po.specs.Laws.{CounterHasThese, CounterIsValid, ExamplesAreDevelopments, ValidObligationsCarry};
ghost use Rattle.bk_po.specs.Laws.{SizesKeepObligations, WholeIsCorrect, ObligationsType, BoxesCarry};
ghost use Rattle.bk_po.specs.Laws.{EveryLevelIsCarried, ConditionsAreClean, EagerAsksTheMachine};

/// The obligations of a counter, to be checked by hand.
pub fn counter()
    ensures names { CounterHasThese }
    ensures valid { CounterIsValid }
{}

/// An adder, which has an input and a precondition, and a stepper, which has an IF.
pub fn examples()
    ensures tally { TallyAsks }
    ensures facts { ExamplesAreDevelopments }
{}

/// Whole lists, written by hand: of a number that leaves the machine's range, of two numbers that change places by `||`, and of an array that a loop fills.
pub fn written_lists()
    ensures over { OverHasThese }
    ensures swap { SwapHasThese }
    ensures fill { FillHasThese }
{}

/// What valid obligations are worth: the claims from which translated code follows its machine.
pub fn obligations_carry()
    ensures { ValidObligationsCarry }
{}

/// Obligations and sizes of deferred sets: the obligations are the same with any, and where there is an implementation there is
/// one choice of them.
pub fn set_sizes()
    ensures same { SizesKeepObligations }
    ensures whole { WholeIsCorrect }
{}

/// The formulas of all obligations of a development are predicates: what is replayed on them keeps its worth.
pub fn obligations_type()
    ensures { ObligationsType }
{}

/// What the boxes of all levels are worth together, where all that is met is defined or fits, with nothing asked of what stands above the last
/// level; that the conditions beside them say so; and a development of which the boxes of one level are not enough.
pub fn all_levels()
    ensures carries { BoxesCarry }
    ensures every { EveryLevelIsCarried }
    ensures clean { ConditionsAreClean }
    ensures eager { EagerAsksTheMachine }
{}
