//! `po`: what is to be proved of a project.

ghost use Rattle.std.specs.Prelude.{◌≡◌, ◌⊎◌, Some, IfOk, IfErr};
ghost use Rattle.bk_io.specs.Files.{Files};
ghost use Rattle.bk_io.specs.Counts.{HasCause};
ghost use Rattle.bk_cli.specs.Tasks.{po_task};
ghost use Rattle.bk_verbs.specs.declared.stop.Stop.TheVariants.{ReadFault};
ghost use Rattle.bk_verbs.specs.Causes.{IsOfReading, CountsAbsence};
ghost use Rattle.bk_verbs.specs.Stops.{IsOutside, StopsTask};
ghost use Rattle.bk_verbs.specs.Prepared.{IsPrepared, Suits, CanBePlayed};

use crate::files::read_project;
use crate::proof::obligations_of;
use crate::stop::Stop;
use crate::work::Work;
use bk_io::Shelf;
use bk_po::obligation_table;
use std::alloc::Global;

/// The obligations of a project, with the table of their names. Its proof files are not fetched.
pub(crate) fn shown_obligations<H: Shelf>(
    alloc: Global,
    project: &str,
    shelf: &mut H,
) -> Result<Work, Stop>
    ensures cause { IfErr result (λ stop. (files : Files) → H.files shelf.old ≡ Some files →
        IsOutside stop ⊎ StopsTask files (po_task project.now) stop) }
    ensures reading { IfErr result IsOfReading }
    ensures failed { HasCause ReadFault (H.faults shelf.old) (H.faults shelf.new) result }
    ensures missing { CountsAbsence (H.absences shelf.old) (H.absences shelf.new) result }
    ensures files { H.files shelf.new ≡ H.files shelf.old }
    ensures told { IfOk result (λ work. (files : Files) → H.files shelf.old ≡ Some files →
        IsPrepared files (po_task project.now) work) }
    ensures suits { IfOk result (λ work. (files : Files) → H.files shelf.old ≡ Some files →
        Suits files (po_task project.now) work) }
    ensures playable { IfOk result CanBePlayed }
{
    let read = read_project(alloc, project, false, shelf)?;
    let list = obligations_of(alloc, project, &read.development)?;
    let table = obligation_table(alloc, &read.development)?;
    Ok(Work::Obligations { list, table })
}
