//! `goal`.

ghost use Rattle.std.specs.Prelude.{◌≡◌, ◌⊎◌, Some, IfOk, IfErr};
ghost use Rattle.bk_io.specs.Counts.{HasCause};
ghost use Rattle.bk_io.specs.Files.{Files};
ghost use Rattle.bk_cli.specs.Tasks.{status_task};
ghost use Rattle.bk_verbs.specs.Causes.{IsOfReading};
ghost use Rattle.bk_verbs.specs.Stops.{IsOutside, StopsTask};
ghost use Rattle.bk_verbs.specs.declared.stop.Stop.TheVariants.{ReadFault};
ghost use Rattle.bk_proof_words.specs.declared.task.Task.TheVariants.{Goal};
ghost use Rattle.bk_proof_program.specs.Answers.{IsAnswer, IsEnd};
ghost use Rattle.bk_proof_program.specs.Goals as meant;
ghost use Rattle.bk_proof_program.specs.Said.{IsToldAnswer};

use crate::answer::Answer;
use crate::project::{found, notes_of, obligation_named, read_whole};
use bk_goal::{Asked, goal_text};
use bk_io::{Memory, Shelf};
use bk_po::Obligation;
use bk_reasons::nearest;
use bk_verbs::{Status, Stop};
use std::alloc::Global;

/// What is open of an obligation; where there is none of the name, the one that is most like it, with the status of wrong words.
pub(crate) fn goal_answer<H: Shelf>(
    alloc: Global,
    project: &str,
    name: &str,
    at: Option<usize>,
    shelf: &mut H,
) -> Result<Answer, Stop>
    ensures told { IfOk result (λ a. (files : Files) → H.files shelf.old ≡ Some files →
        IsToldAnswer files (Goal project.entry name.entry at) a) }
    ensures ok { IfOk result IsAnswer }
    ensures cause { IfErr result (λ stop. (files : Files) → H.files shelf.old ≡ Some files →
        IsOutside stop ⊎ StopsTask files (status_task project.now) stop) }
    ensures reading { IfErr result IsOfReading }
    ensures failed { HasCause ReadFault (H.faults shelf.old) (H.faults shelf.new) result }
{
    let whole = read_whole(alloc, project, shelf)?;
    let wanted = name.as_bytes();
    let Some(obligation) = obligation_named(&whole.list, wanted) else {
        let line = unknown(alloc, wanted, &whole.list)?;
        return Ok(Answer::Whole(line, Status::Usage));
    };
    let notes = notes_of(alloc, &whole)?;
    let asked = Asked {
        dev: &whole.project.development,
        table: &whole.table,
        obligation,
        found: found(alloc, &whole, wanted)?,
        notes: &notes,
        at,
    };
    let shown = goal_text(alloc, asked)?;
    Ok(Answer::Whole(shown.text, status_of(shown.is_open)))
}

fn status_of(is_open: bool) -> Status
    ensures value { result ≡ meant.status_by is_open }
    ensures ends { IsEnd result }
{
    if is_open {
        Status::Unproved
    } else {
        Status::Done
    }
}

// `unknown NAME (nearest: OTHER)`.
fn unknown(alloc: Global, name: &[u8], list: &[Obligation]) -> Result<Vec<u8>, Memory> {
    let mut text = Vec::new(alloc);
    text.extend_from_slice(b"unknown ")?;
    text.extend_from_slice(name)?;
    if let Some(near) = nearest_name(alloc, name, list)? {
        text.extend_from_slice(b" (nearest: ")?;
        text.extend_from_slice(near)?;
        text.extend_from_slice(b")")?;
    }
    text.extend_from_slice(b"\n")?;
    Ok(text)
}

/// The name of an obligation that is most like a name.
pub(crate) fn nearest_name<'a>(
    alloc: Global,
    name: &[u8],
    list: &'a [Obligation],
) -> Result<Option<&'a [u8]>, Memory> {
    let mut names = Vec::new(alloc);
    for obligation in list {
        names.push(obligation.name.as_bytes())?;
    }
    match nearest(alloc, name, &names)? {
        Some(index) => Ok(names.get(index).copied()),
        None => Ok(None),
    }
}
