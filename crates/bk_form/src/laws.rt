//! Laws of the meaning of formulas. Each is the contract of a function that does nothing.

ghost use Rattle.bk_form.specs.Laws.{AllMeans, SomeMeans, IsIndependent, SearchExists, IsClassical, IsSoundTyping, ReplacementMeans};
ghost use Rattle.bk_form.specs.Laws.{ComprehensionHas, LambdaHas, IntervalHas, TotalMeans, OntoMeans, NoTotalFunction, ChoicesAre};
ghost use Rattle.bk_form.specs.Laws.{Examples, DefinedExamples, WideningMeans, WideningKeepsRoles, WideningKeepsDefined};
ghost use Rattle.bk_form.specs.MemberLaws.{OperatorMembers, ArrowsMean, MeaningIsKnown};
ghost use Rattle.bk_form.specs.Operands.{OperandsAreTyped};
ghost use Rattle.bk_form.specs.PoolLaws.{PoolLaws};
ghost use Rattle.bk_form.specs.Sized.{SizesKeepRoles, SizesFit, OneSizeIsGiven, SetsAreCounted, ElementsHaveTexts};

/// What the quantifiers say.
pub fn quantifiers()
    ensures all { AllMeans }
    ensures some { SomeMeans }
{}

/// Two searches give every formula the same meaning.
pub fn search_is_free()
    ensures { IsIndependent }
{}

/// There is a search, where each test is passed by some list of values or by none: no sentence about searches is empty.
pub fn search_exists()
    ensures { SearchExists }
{}

/// The laws of classical logic.
pub fn classical_logic()
    ensures { IsClassical }
{}

/// A formula that gives a type has a value of it.
pub fn typing_is_sound()
    ensures { IsSoundTyping }
{}

/// Where a formula that an operator makes types, what its operands stand for.
pub fn operands()
    ensures { OperandsAreTyped }
{}

/// What a formula means once terms stand in place of its variables.
pub fn replacement_means()
    ensures { ReplacementMeans }
{}

/// The members of comprehensions, lambdas and intervals, the choices from some ranges, and the members of the sets that the
/// operators make.
pub fn members()
    ensures comprehension { ComprehensionHas }
    ensures lambda { LambdaHas }
    ensures interval { IntervalHas }
    ensures choices { ChoicesAre }
    ensures operators { OperatorMembers }
{}

/// A predicate means no more than its truth, and a set no more than its members.
pub fn known_meanings()
    ensures { MeaningIsKnown }
{}

/// What is total and what is onto, and what the arrows and application say of pairs.
pub fn arrows()
    ensures pairs { ArrowsMean }
    ensures total { TotalMeans }
    ensures onto { OntoMeans }
    ensures infinite { NoTotalFunction }
{}

/// Small cases, to be checked by hand.
pub fn examples()
    ensures meaning { Examples }
    ensures defined { DefinedExamples }
{}

/// Over a table with more variables or sets a formula that types means what it meant, stands for the same kind of thing, and
/// is defined and fits the machine as before.
pub fn wider_tables()
    ensures means { WideningMeans }
    ensures roles { WideningKeepsRoles }
    ensures defined { WideningKeepsDefined }
{}

/// What the sizes of deferred sets leave as it was, that a table gets them one by one, and that a set has as many elements, and
/// texts for them, as its size says.
pub fn sized_tables()
    ensures roles { SizesKeepRoles }
    ensures fit { SizesFit }
    ensures one { OneSizeIsGiven }
    ensures counted { SetsAreCounted }
    ensures texts { ElementsHaveTexts }
{}

/// All parts of a member of a pool stand in it, and a formula whose parts stand there may go last.
pub fn pools()
    ensures { PoolLaws }
{}
