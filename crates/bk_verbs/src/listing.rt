//! `code`: the instructions of a project's implementation.

ghost use Rattle.std.specs.Prelude.{◌≡◌, ◌⊎◌, Some, IfOk, IfErr};
ghost use Rattle.bk_io.specs.Files.{Files};
ghost use Rattle.bk_io.specs.Counts.{HasCause};
ghost use Rattle.bk_cli.specs.Tasks.{code_task};
ghost use Rattle.bk_verbs.specs.declared.stop.Stop.TheVariants.{ReadFault};
ghost use Rattle.bk_verbs.specs.Causes.{IsOfReading, CountsAbsence};
ghost use Rattle.bk_verbs.specs.Stops.{IsOutside, StopsTask};
ghost use Rattle.bk_verbs.specs.Prepared.{IsPrepared, Suits, CanBePlayed};

use crate::code::image_of;
use crate::files::read_project;
use crate::proof::check_complete;
use crate::stop::Stop;
use crate::work::Work;
use bk_io::Shelf;
use bk_report::listing;
use std::alloc::Global;

/// The listing of a project's code. Its proof files are not fetched, and its obligations are not made.
pub(crate) fn listing_text<H: Shelf>(
    alloc: Global,
    project: &str,
    shelf: &mut H,
) -> Result<Work, Stop>
    ensures cause { IfErr result (λ stop. (files : Files) → H.files shelf.old ≡ Some files →
        IsOutside stop ⊎ StopsTask files (code_task project.now) stop) }
    ensures reading { IfErr result IsOfReading }
    ensures failed { HasCause ReadFault (H.faults shelf.old) (H.faults shelf.new) result }
    ensures missing { CountsAbsence (H.absences shelf.old) (H.absences shelf.new) result }
    ensures files { H.files shelf.new ≡ H.files shelf.old }
    ensures told { IfOk result (λ work. (files : Files) → H.files shelf.old ≡ Some files →
        IsPrepared files (code_task project.now) work) }
    ensures suits { IfOk result (λ work. (files : Files) → H.files shelf.old ≡ Some files →
        Suits files (code_task project.now) work) }
    ensures playable { IfOk result CanBePlayed }
{
    let read = read_project(alloc, project, false, shelf)?;
    check_complete(alloc, &read.development)?;
    let image = image_of(alloc, project, &read.development)?;
    let text = listing(alloc, &image)?;
    Ok(Work::Text(text))
}
