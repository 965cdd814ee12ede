//! Laws of components, phase by phase. Each is the contract of a function that does nothing.

ghost use Rattle.bk_phases.specs.Laws.{NamesAreBound, NamesHaveSymbols, NamesHaveNextNumbers, StatementsStandRight};
ghost use Rattle.bk_phases.specs.Laws.{OperationsAreHeaded};
ghost use Rattle.bk_phases.specs.Laws.{TypesAreSettled, RoundsAreListed, TypesStand, LevelsGrow, VerdictsAreRight, LimitsAreRight};
ghost use Rattle.bk_phases.specs.Scoping.{ScopesAreRight, ScopesAreListed, StatementsStay};
ghost use Rattle.bk_phases.specs.Typed.{PlacesAsk, StatementsType, PhasesFoundNone};
ghost use Rattle.bk_phases.specs.Examples.{DevelopmentsAreMade, WordsAreRead, FaultsAreTold, TypesComeInOrder, KindsComeInOrder};

/// Small components, to be checked by hand: the developments that they are, what the words of the notation stand for, which faults are
/// told, and in which order types come and kinds of faults are asked.
pub fn examples()
    ensures made { DevelopmentsAreMade }
    ensures words { WordsAreRead }
    ensures faults { FaultsAreTold }
    ensures types { TypesComeInOrder }
    ensures kinds { KindsComeInOrder }
{}

/// What statements bind, where they may stand, and which operations there are.
pub fn statements()
    ensures bound { NamesAreBound }
    ensures symbols { NamesHaveSymbols }
    ensures numbers { NamesHaveNextNumbers }
    ensures places { StatementsStandRight }
    ensures headed { OperationsAreHeaded }
{}

/// What is in scope of a term, and what a substitution names, writes and binds.
pub fn scopes()
    ensures right { ScopesAreRight }
    ensures listed { ScopesAreListed }
    ensures stay { StatementsStay }
{}

/// The types that names come to, and substitutions whose names and terms have types.
pub fn types()
    ensures settled { TypesAreSettled }
    ensures listed { RoundsAreListed }
    ensures stand { TypesStand }
    ensures asks { PlacesAsk }
    ensures types { StatementsType }
{}

/// What a development has of a level more.
pub fn levels()
    ensures { LevelsGrow }
{}

/// What is answered, and what the answer says.
pub fn verdicts()
    ensures right { VerdictsAreRight }
    ensures none { PhasesFoundNone }
    ensures limits { LimitsAreRight }
{}
