//! Laws of levels. Each is the contract of a function that does nothing.

ghost use Rattle.bk_statics.specs.Examples.{DevelopmentsAreMade, WordsAreRead, FaultsAreTold};
ghost use Rattle.bk_statics.specs.LevelLaws.{LevelsBindIntervals, BindersStandApart, HomesAreAll, ClausesAreRight};
ghost use Rattle.bk_statics.specs.LevelLaws.{InitialisationsAreRight, LinksAreRight, BodiesAreRight, OldLevelsStay, HomesStay};
ghost use Rattle.bk_statics.specs.LevelLaws.{NewLevelHasClauses, NewBodiesAreBodies, MachinesAreRight, LowersAreRight};
ghost use Rattle.bk_statics.specs.Sources.{SettledTypesAreListed, ComponentsStand};
ghost use Rattle.bk_statics.specs.ShapeLaws.{ShapesAreRight};
ghost use Rattle.bk_statics.specs.SubLaws.{BindersAreIntervals, SubstitutionsType, SubstitutionsStay};
ghost use Rattle.bk_statics.specs.VerdictLaws.{TokensHaveOneVerdict, AcceptedHasNoFault, StemsAreNames, LocalsStayApart};
ghost use Rattle.bk_statics.specs.VerdictLaws.{AcceptedMachineIsDevelopment, AcceptedRefinementIsDevelopment, AcceptedIsDevelopment};
ghost use Rattle.bk_statics.specs.VerdictLaws.{AcceptedIsInB0};

/// Small components, to be checked by hand: the developments that they are, what the words of the notation stand for, and which
/// faults are told.
pub fn examples()
    ensures made { DevelopmentsAreMade }
    ensures words { WordsAreRead }
    ensures faults { FaultsAreTold }
{}

/// What written substitutions bind, name and write.
pub fn substitutions()
    ensures binders { BindersAreIntervals }
    ensures types { SubstitutionsType }
    ensures stay { SubstitutionsStay }
    ensures shapes { ShapesAreRight }
{}

/// What a level binds, and where its variables are at home.
pub fn binders()
    ensures intervals { LevelsBindIntervals }
    ensures apart { BindersStandApart }
    ensures homes { HomesAreAll }
{}

/// The types that are told have only sets of the table.
pub fn types()
    ensures settled { SettledTypesAreListed }
    ensures stand { ComponentsStand }
{}

/// The predicates of a level, its initialisation, and links.
pub fn initialisations()
    ensures clauses { ClausesAreRight }
    ensures starts { InitialisationsAreRight }
    ensures links { LinksAreRight }
{}

/// The bodies of operations.
pub fn bodies()
    ensures { BodiesAreRight }
{}

/// A level without faults: its clauses, its operations, and the headers of a machine.
pub fn new_levels()
    ensures clauses { NewLevelHasClauses }
    ensures bodies { NewBodiesAreBodies }
    ensures machines { MachinesAreRight }
    ensures lowers { LowersAreRight }
{}

/// What stands above stays as it was.
pub fn levels_above()
    ensures levels { OldLevelsStay }
    ensures homes { HomesStay }
{}

/// There is one answer, and what it says.
pub fn answers()
    ensures one { TokensHaveOneVerdict }
    ensures exact { AcceptedHasNoFault }
    ensures stems { StemsAreNames }
    ensures locals { LocalsStayApart }
    ensures machine { AcceptedMachineIsDevelopment }
    ensures refinement { AcceptedRefinementIsDevelopment }
    ensures development { AcceptedIsDevelopment }
    ensures executable { AcceptedIsInB0 }
{}
