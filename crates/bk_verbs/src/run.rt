//! `run`: calls on a project whose obligations are proved.

ghost use Rattle.std.specs.Prelude.{◌≡◌, ◌⊎◌, ◌≤◌, ℕ, false, All, length, map, Some, IfOk, IfErr};
ghost use Rattle.bk_io.specs.Files.{Files};
ghost use Rattle.bk_io.specs.Counts.{HasCause};
ghost use Rattle.bk_code.specs.Checks.{IsChecked};
ghost use Rattle.bk_code.specs.Laws.{IsRequest};
ghost use Rattle.bk_calls.specs.Script.{request_of};
ghost use Rattle.bk_verbs.specs.declared.stop.Stop.TheVariants.{ReadFault};
ghost use Rattle.bk_cli.specs.Tasks.{run_task, most_fuel};
ghost use Rattle.bk_verbs.specs.Causes.{IsOfReading, CountsAbsence};
ghost use Rattle.bk_verbs.specs.Stops.{IsOutside, StopsTask};
ghost use Rattle.bk_verbs.specs.Work.{IsMadeReady};
ghost use Rattle.bk_verbs.specs.Prepared.{IsPrepared, Suits, CanBePlayed};

use crate::code::image_of;
use crate::files::{fetch, read_project};
use crate::player::Player;
use crate::proof::proved_table;
use crate::script::calls_of;
use crate::stop::Stop;
use crate::work::Work;
use bk_calls::Call;
use bk_io::Shelf;
use bk_limits::MOST_CALLS;
use bk_status::Table;
use std::alloc::Global;

/// A project whose obligations are proved: its status table, the session of its code before its initialisation, and the calls that a
/// script asks for.
#[derive(Drop)]
pub(crate) struct Ready {
    pub(crate) table: Table,
    pub(crate) player: Player,
    pub(crate) calls: Vec<Call>,
}

/// The session of a project's code over the calls that a script asks for.
pub(crate) fn session_of_project<H: Shelf>(
    alloc: Global,
    project: &str,
    script: &str,
    fuel: u64,
    shelf: &mut H,
) -> Result<Work, Stop>
    requires small { fuel ≤ most_fuel }
    ensures cause { IfErr result (λ stop. (files : Files) → H.files shelf.old ≡ Some files →
        IsOutside stop ⊎ StopsTask files (run_task project.now script.now fuel) stop) }
    ensures reading { IfErr result IsOfReading }
    ensures failed { HasCause ReadFault (H.faults shelf.old) (H.faults shelf.new) result }
    ensures missing { CountsAbsence (H.absences shelf.old) (H.absences shelf.new) result }
    ensures files { H.files shelf.new ≡ H.files shelf.old }
    ensures told { IfOk result (λ work. (files : Files) → H.files shelf.old ≡ Some files →
        IsPrepared files (run_task project.now script.now fuel) work) }
    ensures suits { IfOk result (λ work. (files : Files) → H.files shelf.old ≡ Some files →
        Suits files (run_task project.now script.now fuel) work) }
    ensures playable { IfOk result CanBePlayed }
{
    let ready = ready_project(alloc, project, script, shelf)?;
    Ok(Work::Play {
        player: ready.player,
        calls: ready.calls,
        fuel,
    })
}

/// Reads and proves a project, and the script of calls of its code.
pub(crate) fn ready_project<H: Shelf>(
    alloc: Global,
    project: &str,
    script: &str,
    shelf: &mut H,
) -> Result<Ready, Stop>
    ensures cause { IfErr result (λ stop. (files : Files) (fuel : ℕ) → H.files shelf.old ≡ Some files →
        IsOutside stop ⊎ StopsTask files (run_task project.now script.now fuel) stop) }
    ensures reading { IfErr result IsOfReading }
    ensures failed { HasCause ReadFault (H.faults shelf.old) (H.faults shelf.new) result }
    ensures missing { CountsAbsence (H.absences shelf.old) (H.absences shelf.new) result }
    ensures files { H.files shelf.new ≡ H.files shelf.old }
    ensures ready { IfOk result (λ ready. (files : Files) → H.files shelf.old ≡ Some files →
        IsMadeReady files project.now script.now ready.table.rows.items ready.player.image (map request_of ready.calls.items)) }
    ensures fresh { IfOk result (λ ready. ready.player.started ≡ false) }
    ensures checked { IfOk result (λ ready. IsChecked ready.player.image) }
    ensures requests { IfOk result (λ ready. All (IsRequest ready.player.image) (map request_of ready.calls.items)) }
    ensures few { IfOk result (λ ready. length ready.calls.items ≤ MOST_CALLS) }
{
    let read = read_project(alloc, project, true, shelf)?;
    let table = proved_table(alloc, project, &read)?;
    let text = fetch(alloc, script, shelf)?;
    let image = image_of(alloc, project, &read.development)?;
    let calls = calls_of(alloc, script, &text, &image)?;
    let player = Player::of_project(alloc, image, &read.development)?;
    Ok(Ready {
        table,
        player,
        calls,
    })
}
