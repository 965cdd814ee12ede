//! Laws of arithmetic on formulas. Each is the contract of a function that does nothing.

ghost use Rattle.bk_arith.specs.Laws.{ClosedSumsAreNumbers, SameIsEqual, ReadingMeans, FactsDecide, AcceptedIsValid, PolynomialIsValid, CasesAreAll};

/// What the words of the definition mean.
pub fn words()
    ensures closed_sums { ClosedSumsAreNumbers }
    ensures same { SameIsEqual }
    ensures reading { ReadingMeans }
{}

/// What is wrong with a certificate, by the facts.
pub fn facts_decide()
    ensures { FactsDecide }
{}

/// What is accepted is valid.
pub fn accepted_is_valid()
    ensures { AcceptedIsValid }
{}

/// An equation between equal polynomials is valid.
pub fn polynomial_is_valid()
    ensures { PolynomialIsValid }
{}

/// The cases of a term in an interval are all that there are.
pub fn cases_are_all()
    ensures { CasesAreAll }
{}
