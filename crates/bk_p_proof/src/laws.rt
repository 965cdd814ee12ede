//! What the definitions imply.

ghost use Rattle.bk_p_proof.specs.Laws.{FaultsAreOne, FaultsExclude, ScriptsAreTold, ScriptsOfAreOne};

/// Texts have at most one list of scripts.
pub fn scripts_are_one()
    ensures { ScriptsOfAreOne }
{}

/// Texts that have scripts have no fault.
pub fn faults_exclude()
    ensures { FaultsExclude }
{}

/// Texts have at most one fault.
pub fn faults_are_one()
    ensures { FaultsAreOne }
{}

/// Texts have scripts, or a fault.
pub fn scripts_are_told()
    ensures { ScriptsAreTold }
{}
