//! What a verb has to write: its files are read, and its checks are made in their order.

ghost use Rattle.std.specs.Prelude.{◌≡◌, ◌⊎◌, Some, IfOk, IfErr};
ghost use Rattle.bk_io.specs.Files.{Files};
ghost use Rattle.bk_io.specs.Counts.{HasCause};
ghost use Rattle.bk_cli.specs.Asked.{task_of, HasSmallNumbers};
ghost use Rattle.bk_verbs.specs.declared.stop.Stop.TheVariants.{ReadFault};
ghost use Rattle.bk_verbs.specs.Causes.{IsOfReading, CountsAbsence};
ghost use Rattle.bk_verbs.specs.Stops.{IsOutside, StopsTask};
ghost use Rattle.bk_verbs.specs.Prepared.{IsPrepared, Suits, CanBePlayed};

use crate::build::built_bytes;
use crate::check::checked_text;
use crate::exec::session_of_image;
use crate::finding::found_scripts;
use crate::listing::listing_text;
use crate::obligations::shown_obligations;
use crate::run::session_of_project;
use crate::sample::sample_lines;
use crate::stop::Stop;
use crate::table::status_text;
use crate::work::Work;
use bk_cli::Command;
use bk_io::Shelf;
use std::alloc::Global;

/// Reads and checks what a command works on, and answers what it has to write.
///
/// `check PROJECT` reads the project's file and the component files that it names, and says so in a line. `status PROJECT`
/// reads the proof files too, makes the proof obligations, and writes the table that says of each whether it is obvious or
/// proved by a replayed script. `po PROJECT` writes the obligations themselves, and `find PROJECT`
/// a proof file with scripts for those that are open. `code PROJECT` writes the instructions of the
/// translated implementation, and `build PROJECT`, where each obligation is obvious or proved, its
/// image. `run PROJECT CALLS` plays, where each is, the calls of the script on it; `exec IMAGE CALLS`
/// plays them on the image that a file holds.
/// `sample N` makes a development with N variables, and writes, where each of its obligations is
/// proved, the last line of its status table and that of its session; the shelf is not asked.
pub fn prepare<H: Shelf>(alloc: Global, command: Command<'_>, shelf: &mut H) -> Result<Work, Stop>
    requires small { HasSmallNumbers command }
    ensures cause { IfErr result (λ stop. (files : Files) → H.files shelf.old ≡ Some files →
        IsOutside stop ⊎ StopsTask files (task_of command.entry) stop) }
    ensures reading { IfErr result IsOfReading }
    ensures failed { HasCause ReadFault (H.faults shelf.old) (H.faults shelf.new) result }
    ensures missing { CountsAbsence (H.absences shelf.old) (H.absences shelf.new) result }
    ensures files { H.files shelf.new ≡ H.files shelf.old }
    ensures told { IfOk result (λ work. (files : Files) → H.files shelf.old ≡ Some files →
        IsPrepared files (task_of command.entry) work) }
    ensures suits { IfOk result (λ work. (files : Files) → H.files shelf.old ≡ Some files →
        Suits files (task_of command.entry) work) }
    ensures playable { IfOk result CanBePlayed }
{
    match command {
        Command::Check { project } => checked_text(alloc, project, shelf),
        Command::Status { project } => status_text(alloc, project, shelf),
        Command::Obligations { project } => shown_obligations(alloc, project, shelf),
        Command::Find { project } => found_scripts(alloc, project, shelf),
        Command::Code { project } => listing_text(alloc, project, shelf),
        Command::Build { project } => built_bytes(alloc, project, shelf),
        Command::Run {
            project,
            calls,
            fuel,
        } => session_of_project(alloc, project, calls, fuel, shelf),
        Command::Exec { image, calls, fuel } => {
            session_of_image(alloc, image, calls, fuel, shelf)
        }
        Command::Sample { variables } => sample_lines(alloc, variables),
    }
}
