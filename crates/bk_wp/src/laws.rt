//! Laws of box and diamond. Each is the contract of a function that does nothing.

ghost use Rattle.bk_wp.specs.Laws.{BoxWithoutBinders, DiamondWithoutBinders, ConjugateWithoutBinders, BoxMeans};
ghost use Rattle.bk_wp.specs.Laws.{DiamondMeans, DiamondIsConjugate, BoxIsSound, GuardedIsClean, GuardedIsPredicate};
ghost use Rattle.bk_wp.specs.Growth.{BoxIsNoSmaller, DiamondIsNoSmaller};
ghost use Rattle.bk_wp.specs.Examples.{EachTable, CountsUp};

/// What box and diamond say of a substitution without locals, loops and `||`.
pub fn without_binders()
    ensures boxes { BoxWithoutBinders }
    ensures diamonds { DiamondWithoutBinders }
    ensures conjugates { ConjugateWithoutBinders }
{}

/// What they say with locals and `x :(P)` too.
pub fn with_binders()
    ensures boxes { BoxMeans }
    ensures diamonds { DiamondMeans }
    ensures conjugates { DiamondIsConjugate }
{}

/// What the box says with loops too.
pub fn with_loops()
    ensures { BoxIsSound }
{}

/// What the evaluation conditions say together with the box, and that they are predicates.
pub fn evaluation()
    ensures clean { GuardedIsClean }
    ensures predicates { GuardedIsPredicate }
{}

/// Neither is smaller than what is to hold after the substitution.
pub fn growth()
    ensures boxes { BoxIsNoSmaller }
    ensures diamonds { DiamondIsNoSmaller }
{}

/// Small cases, to be checked by hand.
pub fn examples()
    ensures tables { EachTable }
    ensures count_up { CountsUp }
{}
