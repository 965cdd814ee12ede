//! Laws of what scripts stand for, as contracts of functions that do nothing.

ghost use Rattle.bk_scripts.specs.Examples.{GroundingExamples};
ghost use Rattle.bk_scripts.specs.Laws.{GroundedAreAlike, WidenedIsWider, WidenedIsWellFormed};

/// Rules that one written rule stands for make the same of each sequent.
#[tactic(auto, using(crate::proofs::Alike::grounded_are_alike))]
pub fn grounded_are_alike()
    ensures { GroundedAreAlike }
{}

/// The table of a script's rules has the variables and sets of the table that it is over, by their numbers.
#[tactic(auto, using(crate::proofs::Alike::widened_is_wider))]
pub fn widened_is_wider()
    ensures { WidenedIsWider }
{}

/// And it is as well formed, if it is not past 32 bits.
pub fn widened_is_well_formed()
    ensures { WidenedIsWellFormed }
{}

/// Small cases, to be checked by hand.
#[tactic(auto, using(crate::proofs::Small::small_cases))]
pub fn grounding_examples()
    ensures { GroundingExamples }
{}
