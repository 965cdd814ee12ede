//! The obligations of a project, and which of them are proved.

ghost use Rattle.std.specs.Prelude.{◌≡◌, ◌⊎◌, ◌<◌, true, length, map, IfOk, IfErr, OnOk};
ghost use Rattle.bk_dev.specs.Development.{Development, level_at, last, is_complete};
ghost use Rattle.bk_po.specs.Obligations.{obligations, numbered_obligations};
ghost use Rattle.bk_po.specs.Shown.{named_sequent};
ghost use Rattle.bk_po.specs.Limits.{PassNoLimit, IsFaultOf};
ghost use Rattle.bk_status.specs.Rows.{HasRows};
ghost use Rattle.bk_verbs.specs.Project.{IsProved, IsFinished};
ghost use Rattle.bk_verbs.specs.declared.stop.Stop.TheVariants.{Memory};
ghost use Rattle.bk_verbs.specs.Causes.{IsOfChecks};
ghost use Rattle.bk_verbs.specs.Stops.{IsOutside, StopsIncomplete, StopsAtObligations, StopsPastLimits, StopsAtProof};

use crate::files::{Project, owned};
use crate::stop::Stop;
use bk_dev::{Development, Level};
use bk_po::{Obligation, PoFault};
use bk_status::{Table, status};
use std::alloc::Global;

/// The number of the limit of one obligation's formulas.
const LIMIT_OF_OBLIGATION: u8 = 6;

/// Asks that a project's last component is an implementation, and that each obligation is obvious or proved by its script.
pub(crate) fn check_proved(alloc: Global, name: &str, project: &Project) -> Result<(), Stop>
    ensures cause { IfErr result (λ stop.
        IsOutside stop ⊎ StopsAtProof name.now project.now.development project.now.scripts stop) }
    ensures checks { IfErr result IsOfChecks }
    ensures ok { OnOk result (IsFinished project.now.development project.now.scripts) }
{
    proved_table(alloc, name, project)?;
    Ok(())
}

/// The status table of a project of which that is so.
pub(crate) fn proved_table(alloc: Global, name: &str, project: &Project) -> Result<Table, Stop>
    ensures cause { IfErr result (λ stop.
        IsOutside stop ⊎ StopsAtProof name.now project.now.development project.now.scripts stop) }
    ensures checks { IfErr result IsOfChecks }
    ensures ok { OnOk result (IsFinished project.now.development project.now.scripts) }
    ensures rows { IfOk result (λ table.
        HasRows project.now.development project.now.scripts table.rows.items) }
{
    check_complete(alloc, &project.development)?;
    closed_table(alloc, name, project)
}

/// Asks that the last component of a development is an implementation.
pub(crate) fn check_complete(alloc: Global, dev: &Development) -> Result<(), Stop>
    ensures cause { IfErr result (λ stop. IsOutside stop ⊎ StopsIncomplete dev.now stop) }
    ensures checks { IfErr result IsOfChecks }
    ensures ok { OnOk result (is_complete dev.now ≡ true) }
{
    dev.facts();
    if !dev.is_complete() {
        return Err(Stop::Incomplete(last_level(dev).name.copy(alloc)?));
    }
    Ok(())
}

// The last component.
fn last_level(dev: &Development) -> &Level
    requires { 0 < length dev.now.levels }
    ensures { result.now ≡ level_at dev.now (last dev.now) }
{
    let levels = &dev.levels;
    &levels[levels.len() - 1]
}

// The status table of a project, each of whose obligations is obvious or proved by its script.
fn closed_table(alloc: Global, name: &str, project: &Project) -> Result<Table, Stop>
    ensures cause { IfErr result (λ stop.
        IsOutside stop ⊎ StopsAtObligations name.now project.now.development project.now.scripts stop) }
    ensures checks { IfErr result IsOfChecks }
    ensures ok { OnOk result (IsProved project.now.development project.now.scripts) }
    ensures rows { IfOk result (λ table.
        HasRows project.now.development project.now.scripts table.rows.items) }
{
    let table = table_of(alloc, name, project)?;
    match table.first_open() {
        Some(row) => Err(Stop::Unproved(row.name.copy(alloc)?)),
        None => Ok(table),
    }
}

/// The status table of a project.
pub fn table_of(alloc: Global, name: &str, project: &Project) -> Result<Table, Stop>
    ensures cause { IfErr result (λ stop. IsOutside stop ⊎ StopsPastLimits name.now project.now.development stop) }
    ensures checks { IfErr result IsOfChecks }
    ensures rows { IfOk result (λ table.
        HasRows project.now.development project.now.scripts table.rows.items) }
    ensures within { OnOk result (PassNoLimit (obligations project.now.development)) }
{
    match status(alloc, &project.development, &project.scripts) {
        Ok(table) => Ok(table),
        Err(fault) => Err(past(alloc, fault, name)?),
    }
}

/// The obligations of a development.
pub fn obligations_of(alloc: Global, name: &str, dev: &Development) -> Result<Vec<Obligation>, Stop>
    ensures cause { IfErr result (λ stop. IsOutside stop ⊎ StopsPastLimits name.now dev.now stop) }
    ensures checks { IfErr result IsOfChecks }
    ensures value { IfOk result (λ list. map named_sequent list.items ≡ numbered_obligations dev.now) }
    ensures within { OnOk result (PassNoLimit (obligations dev.now)) }
{
    match bk_po::obligations(alloc, dev) {
        Ok(list) => Ok(list),
        Err(fault) => Err(past(alloc, fault, name)?),
    }
}

// The limit that an obligation, or the project's obligations together, pass.
fn past(alloc: Global, fault: PoFault, project: &str) -> Result<Stop, Stop>
    ensures memory { IfErr result (λ stop. stop ≡ Memory) }
    ensures cause { IfOk result (λ stop. (dev : Development) → IsFaultOf (obligations dev) fault →
        IsOutside stop ⊎ StopsPastLimits project.now dev stop) }
    ensures checks { IfOk result IsOfChecks }
{
    Ok(match fault {
        PoFault::TooLarge { name } => Stop::Limit(LIMIT_OF_OBLIGATION, name),
        PoFault::TooMany(limit) => Stop::Limit(limit, owned(alloc, project)?),
        PoFault::Memory => Stop::Memory,
    })
}
