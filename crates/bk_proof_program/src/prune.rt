//! `prune`.

ghost use Rattle.std.specs.Prelude.{◌≡◌, ◌⊎◌, Some, find, IfOk, IfErr};
ghost use Rattle.std.specs.Option.{option_copied};
ghost use Rattle.std.specs.Str.{bytes_eq};
ghost use Rattle.bk_io.specs.Counts.{HasCause};
ghost use Rattle.bk_io.specs.Files.{Files};
ghost use Rattle.bk_cli.specs.Tasks.{status_task};
ghost use Rattle.bk_verbs.specs.Causes.{IsOfReading};
ghost use Rattle.bk_verbs.specs.Stops.{IsOutside, StopsTask};
ghost use Rattle.bk_verbs.specs.declared.stop.Stop.TheVariants.{ReadFault};
ghost use Rattle.bk_proof_words.specs.declared.task.Task.TheVariants.{Prune};
ghost use Rattle.bk_proof_program.specs.Answers.{IsAnswer, IsEnd};
ghost use Rattle.bk_proof_program.specs.Said.{IsToldAnswer};
ghost use Rattle.bk_proof_program.specs.Prunes as meant;

use crate::answer::Answer;
use crate::project::{NamedText, read_whole};
use bk_io::{Memory, Shelf};
use bk_prune::prune_file;
use bk_verbs::{Status, Stop};
use std::alloc::Global;

/// A proof file of a project without rules that nothing uses; where the project has no such file, a line that says so, with the status of
/// wrong words.
pub(crate) fn prune_answer<H: Shelf>(
    alloc: Global,
    project: &str,
    file: &str,
    shelf: &mut H,
) -> Result<Answer, Stop>
    ensures told { IfOk result (λ a. (files : Files) → H.files shelf.old ≡ Some files →
        IsToldAnswer files (Prune project.entry file.entry) a) }
    ensures ok { IfOk result IsAnswer }
    ensures cause { IfErr result (λ stop. (files : Files) → H.files shelf.old ≡ Some files →
        IsOutside stop ⊎ StopsTask files (status_task project.now) stop) }
    ensures reading { IfErr result IsOfReading }
    ensures failed { HasCause ReadFault (H.faults shelf.old) (H.faults shelf.new) result }
{
    let whole = read_whole(alloc, project, shelf)?;
    let Some(proofs) = file_named(&whole.files.proofs, file.as_bytes()) else {
        let line = unknown(alloc, file)?;
        return Ok(Answer::Whole(line, Status::Usage));
    };
    let dev = &whole.project.development;
    let pruned = prune_file(alloc, dev, &whole.table, &whole.list, &proofs.text)?;
    Ok(Answer::Whole(pruned.text, status_of(pruned.left)))
}

// The first file with a name.
fn file_named<'a>(files: &'a [NamedText], name: &[u8]) -> Option<&'a NamedText>
    ensures { option_copied result ≡ find (λ f. bytes_eq name.now f.name) files.now }
{
    files.iter().find(|file| name == file.name.as_bytes())
}

fn status_of(left: usize) -> Status
    ensures value { result ≡ meant.status_with left }
    ensures ends { IsEnd result }
{
    if left == 0 {
        Status::Done
    } else {
        Status::Unproved
    }
}

fn unknown(alloc: Global, file: &str) -> Result<Vec<u8>, Memory> {
    let mut text = Vec::new(alloc);
    text.extend_from_slice(b"unknown ")?;
    text.extend_from_slice(file.as_bytes())?;
    text.extend_from_slice(b": no line of the project names this proof file\n")?;
    Ok(text)
}
