//! `build`: the image of a project whose obligations are proved.

ghost use Rattle.std.specs.Prelude.{◌≡◌, ◌⊎◌, Some, IfOk, IfErr};
ghost use Rattle.bk_io.specs.Files.{Files};
ghost use Rattle.bk_io.specs.Counts.{HasCause};
ghost use Rattle.bk_verbs.specs.declared.stop.Stop.TheVariants.{ReadFault};
ghost use Rattle.bk_cli.specs.Tasks.{build_task};
ghost use Rattle.bk_verbs.specs.Causes.{IsOfReading, CountsAbsence};
ghost use Rattle.bk_verbs.specs.Stops.{IsOutside, StopsTask};
ghost use Rattle.bk_verbs.specs.Prepared.{IsPrepared, Suits, CanBePlayed};

use crate::code::image_of;
use crate::files::read_project;
use crate::proof::check_proved;
use crate::stop::Stop;
use crate::work::Work;
use bk_image::write;
use bk_io::Shelf;
use std::alloc::Global;

/// The bytes of the image of a project's implementation.
pub(crate) fn built_bytes<H: Shelf>(
    alloc: Global,
    project: &str,
    shelf: &mut H,
) -> Result<Work, Stop>
    ensures cause { IfErr result (λ stop. (files : Files) → H.files shelf.old ≡ Some files →
        IsOutside stop ⊎ StopsTask files (build_task project.now) stop) }
    ensures reading { IfErr result IsOfReading }
    ensures failed { HasCause ReadFault (H.faults shelf.old) (H.faults shelf.new) result }
    ensures missing { CountsAbsence (H.absences shelf.old) (H.absences shelf.new) result }
    ensures files { H.files shelf.new ≡ H.files shelf.old }
    ensures told { IfOk result (λ work. (files : Files) → H.files shelf.old ≡ Some files →
        IsPrepared files (build_task project.now) work) }
    ensures suits { IfOk result (λ work. (files : Files) → H.files shelf.old ≡ Some files →
        Suits files (build_task project.now) work) }
    ensures playable { IfOk result CanBePlayed }
{
    let read = read_project(alloc, project, true, shelf)?;
    check_proved(alloc, project, &read)?;
    let image = image_of(alloc, project, &read.development)?;
    let bytes = write(alloc, &image)?;
    Ok(Work::Text(bytes))
}
