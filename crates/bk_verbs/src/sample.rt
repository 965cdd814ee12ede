//! `sample`: a development that the program makes itself, whose obligations it proves and whose code it runs.

ghost use Rattle.std.specs.Prelude.{◌≡◌, ◌⊎◌, ◌≤◌, false, All, length, map, IfOk, IfErr, codes};
ghost use Rattle.bk_io.specs.Files.{Files};
ghost use Rattle.bk_code.specs.Laws.{IsRequest};
ghost use Rattle.bk_calls.specs.Script.{request_of};
ghost use Rattle.bk_cli.specs.Tasks.{sample_task, most_variables};
ghost use Rattle.bk_verbs.specs.Causes.{IsOfChecks};
ghost use Rattle.bk_verbs.specs.Stops.{IsOutside, StopsTask, StopsAtWork};
ghost use Rattle.bk_verbs.specs.Samples.{sample_files, sample_project, sample_run, last_line, has_end_within};
ghost use Rattle.bk_verbs.specs.Work.{IsMadeReady};
ghost use Rattle.bk_verbs.specs.Prepared.{IsPrepared, Suits, CanBePlayed};

use crate::run::{Ready, ready_project};
use crate::session::play;
use crate::stop::Stop;
use crate::work::Work;
use bk_calls::{SAMPLE_CALLS, SAMPLE_PROJECT, sample};
use bk_io::{SureShelf, SureSink};
use bk_limits::{FUEL, MOST_CALLS};
use bk_report::table_text;
use std::alloc::Global;

/// The last line of a sample's status table and that of its session, which is played.
pub(crate) fn sample_lines(alloc: Global, variables: u32) -> Result<Work, Stop>
    requires least { 1 ≤ variables }
    requires most { variables ≤ most_variables }
    ensures cause { IfErr result (λ stop. (files : Files) → IsOutside stop ⊎ StopsTask files (sample_task variables) stop) }
    ensures checks { IfErr result IsOfChecks }
    ensures told { IfOk result (λ work. (files : Files) → IsPrepared files (sample_task variables) work) }
    ensures suits { IfOk result (λ work. (files : Files) → Suits files (sample_task variables) work) }
    ensures playable { IfOk result CanBePlayed }
{
    let ready = ready_sample(alloc, variables)?;
    let table = table_text(alloc, &ready.table.rows)?;
    let mut transcript = SureSink::new(alloc, 0)?;
    let status = play(alloc, ready.player, &ready.calls, FUEL, &mut transcript)?;
    let mut text = Vec::new(alloc);
    text.extend_from_slice(last_line(&table))?;
    text.extend_from_slice(last_line(transcript.written()))?;
    Ok(Work::Ended { text, status })
}

// A sample whose obligations are proved, with its code and the calls of its script.
fn ready_sample(alloc: Global, variables: u32) -> Result<Ready, Stop>
    requires least { 1 ≤ variables }
    requires most { variables ≤ most_variables }
    ensures cause { IfErr result (λ stop. IsOutside stop ⊎ StopsAtWork (sample_files variables) sample_project sample_run stop) }
    ensures checks { IfErr result IsOfChecks }
    ensures ready { IfOk result (λ ready. IsMadeReady (sample_files variables) sample_project (codes "sample.calls")
        ready.table.rows.items ready.player.image (map request_of ready.calls.items)) }
    ensures fresh { IfOk result (λ ready. ready.player.started ≡ false) }
    ensures requests { IfOk result (λ ready. All (IsRequest ready.player.image) (map request_of ready.calls.items)) }
    ensures few { IfOk result (λ ready. length ready.calls.items ≤ MOST_CALLS) }
{
    let files = sample(alloc, variables)?.into_files(alloc)?;
    let mut shelf = SureShelf::new(files);
    ready_project(alloc, SAMPLE_PROJECT, SAMPLE_CALLS, &mut shelf)
}

// The last line of a text, with its line feed.
fn last_line(text: &[u8]) -> &[u8]
    ensures { result.now ≡ last_line text.now }
{
    let mut start = text.len().saturating_sub(1);
    while start > 0 && text[start - 1] != b'\n' {
        start -= 1;
    }
    &text[start..]
}
