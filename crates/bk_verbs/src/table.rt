//! `status`: how far each obligation of a project is proved.

ghost use Rattle.std.specs.Prelude.{◌≡◌, ◌⊎◌, Some, IfOk, IfErr};
ghost use Rattle.bk_io.specs.Files.{Files};
ghost use Rattle.bk_io.specs.Counts.{HasCause};
ghost use Rattle.bk_cli.specs.Tasks.{status_task};
ghost use Rattle.bk_verbs.specs.declared.stop.Stop.TheVariants.{ReadFault};
ghost use Rattle.bk_verbs.specs.Causes.{IsOfReading, CountsAbsence};
ghost use Rattle.bk_verbs.specs.Stops.{IsOutside, StopsTask};
ghost use Rattle.bk_verbs.specs.Prepared.{IsPrepared, Suits, CanBePlayed};

use crate::files::read_project;
use crate::proof::table_of;
use crate::stop::Stop;
use crate::work::Work;
use bk_io::Shelf;
use bk_report::table_text;
use std::alloc::Global;

/// The status table of a project.
pub(crate) fn status_text<H: Shelf>(
    alloc: Global,
    project: &str,
    shelf: &mut H,
) -> Result<Work, Stop>
    ensures cause { IfErr result (λ stop. (files : Files) → H.files shelf.old ≡ Some files →
        IsOutside stop ⊎ StopsTask files (status_task project.now) stop) }
    ensures reading { IfErr result IsOfReading }
    ensures failed { HasCause ReadFault (H.faults shelf.old) (H.faults shelf.new) result }
    ensures missing { CountsAbsence (H.absences shelf.old) (H.absences shelf.new) result }
    ensures files { H.files shelf.new ≡ H.files shelf.old }
    ensures told { IfOk result (λ work. (files : Files) → H.files shelf.old ≡ Some files →
        IsPrepared files (status_task project.now) work) }
    ensures suits { IfOk result (λ work. (files : Files) → H.files shelf.old ≡ Some files →
        Suits files (status_task project.now) work) }
    ensures playable { IfOk result CanBePlayed }
{
    let read = read_project(alloc, project, true, shelf)?;
    let table = table_of(alloc, project, &read)?;
    let text = table_text(alloc, &table.rows)?;
    Ok(Work::Text(text))
}
