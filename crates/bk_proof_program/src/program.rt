//! The program over any shelf and any sink.

ghost use Rattle.std.specs.Prelude.{◌≡◌, ◌≢◌, ◌⊎◌, [], Some, map, string_bytes, IfOk, IfErr};
ghost use Rattle.std.specs.IoError.{error_kind};
ghost use Rattle.std.specs.Process.{exit_status};
ghost use Rattle.bk_io.specs.Counts.{Rose, HasCause};
ghost use Rattle.bk_io.specs.Files.{Files};
ghost use Rattle.bk_io.specs.Pieces.{written_with};
ghost use Rattle.bk_verbs.specs.Causes.{IsOfReading};
ghost use Rattle.bk_verbs.specs.Codes.{code_of};
ghost use Rattle.bk_verbs.specs.declared.status.Status.{Status};
ghost use Rattle.bk_verbs.specs.declared.stop.Stop.TheVariants.{Usage, ReadFault};
ghost use Rattle.bk_verbs.specs.Stops.{IsCutShort, IsOutside};
ghost use Rattle.bk_proof_words.specs.Tasks.{Asks};
ghost use Rattle.bk_proof_words.specs.declared.task.Task.{Task};
ghost use Rattle.bk_proof_program.specs.Answers.{IsAnswer, IsSaid};
ghost use Rattle.bk_proof_program.specs.Said.{IsOutcome, IsToldAnswer, IsWritten, StopsAnswer, StopsWords, TellsStop, WritesAnswer, WritesStop};

use crate::answer::Answer;
use crate::explain::{Question, explain_answer};
use crate::goal::goal_answer;
use crate::help::{USAGE, help_answer, man_answer};
use crate::list::list_answer;
use crate::prune::prune_answer;
use crate::report::report_answer;
use bk_io::{Shelf, Sink, SinkFault, put_all};
use bk_proof_words::{Task, asked};
use bk_verbs::{Status, Stop};
use std::alloc::Global;
use std::io;
use std::io::ErrorKind;
use std::process::ExitCode;

/// The program over the words as the system gives them; the exit code is that of its status. Words that are no text are wrong words.
pub fn exit_code<H: Shelf, K: Sink>(
    alloc: Global,
    words: io::Result<Vec<String>>,
    shelf: &mut H,
    out: &mut K,
) -> ExitCode
    ensures given { IfOk words (λ given. IsOutcome (H.files shelf.old) (map string_bytes given.items) (K.written out.old) (K.written out.new)
        (H.faults shelf.old) (H.faults shelf.new) (K.faults out.old) (K.faults out.new) (exit_status result)) }
    ensures no_text { IfErr words (λ error. error_kind error ≢ ErrorKind.OutOfMemory →
        IsOutcome (H.files shelf.old) [] (K.written out.old) (K.written out.new)
        (H.faults shelf.old) (H.faults shelf.new) (K.faults out.old) (K.faults out.new) (exit_status result)) }
    ensures memory { IfErr words (λ error. error_kind error ≡ ErrorKind.OutOfMemory →
        (exit_status result ≡ code_of Status.Memory) × (K.written out.new ≡ K.written out.old)) }
{
    match words {
        Ok(words) => code_of_run(alloc, &words, shelf, out),
        Err(error) if error.kind() == ErrorKind::OutOfMemory => {
            ExitCode::from(Status::Memory.code())
        }
        Err(_) => code_of_run(alloc, &[], shelf, out),
    }
}

// The exit code of what the words ask for.
fn code_of_run<H: Shelf, K: Sink>(
    alloc: Global,
    words: &[String],
    shelf: &mut H,
    out: &mut K,
) -> ExitCode
    ensures { IsOutcome (H.files shelf.old) (map string_bytes words.now) (K.written out.old) (K.written out.new)
        (H.faults shelf.old) (H.faults shelf.new) (K.faults out.old) (K.faults out.new) (exit_status result) }
{
    ExitCode::from(bkproof(alloc, words, shelf, out).code())
}

/// Does what the words ask for. They are those of the command line without the program's name.
///
/// The status is `Done` where nothing is left, `Unproved` where the work is done and something is open, `Usage` for wrong words and
/// unknown names, and else that of the line that `bkit` writes where a file or a device is at fault.
pub fn bkproof<H: Shelf, K: Sink>(
    alloc: Global,
    words: &[String],
    shelf: &mut H,
    out: &mut K,
) -> Status
    ensures told { IsSaid result → (files : Files) → H.files shelf.old ≡ Some files →
        IsWritten files (map string_bytes words.now) (K.written out.old) (K.written out.new) result }
    ensures read_fault { result ≡ Status.ReadFault → Rose (H.faults shelf.old) (H.faults shelf.new) }
    ensures write_fault { result ≡ Status.WriteFault → Rose (K.faults out.old) (K.faults out.new) }
{
    match answer_to(alloc, words, shelf) {
        Ok(answer) => write_answer(alloc, out, answer),
        Err(stop) => write_stop(alloc, out, &stop),
    }
}

// Writes an answer.
fn write_answer<K: Sink>(alloc: Global, out: &mut K, answer: Answer) -> Status
    requires { IsAnswer answer }
    ensures told { WritesAnswer answer (K.written out.old) (K.written out.new) result }
    ensures read { result ≢ Status.ReadFault }
    ensures failed { result ≡ Status.WriteFault → Rose (K.faults out.old) (K.faults out.new) }
{
    match answer {
        Answer::Whole(text, status) => written(out, &text, status),
        Answer::Explained(stop, text) => explained(alloc, out, &stop, &text),
    }
}

// Writes the line of a stop.
fn write_stop<K: Sink>(alloc: Global, out: &mut K, stop: &Stop) -> Status
    requires { stop.now ≢ Stop.WriteFault }
    ensures told { WritesStop stop.now (K.written out.old) (K.written out.new) result }
    ensures read { result ≡ Status.ReadFault → stop.now ≡ ReadFault }
    ensures failed { result ≡ Status.WriteFault → Rose (K.faults out.old) (K.faults out.new) }
{
    match stop {
        Stop::Usage => written(out, USAGE.as_bytes(), Status::Usage),
        _ => stop.report(alloc, out),
    }
}

// Writes a text; the status is this one, where that is done.
fn written<K: Sink>(out: &mut K, text: &[u8], status: Status) -> Status
    requires { status ≢ Status.WriteFault }
    ensures told { IsCutShort result ⊎ ((result ≡ status) × (K.written out.new ≡ written_with (K.written out.old) text.now)) }
    ensures done { result ≡ Status.ReadFault → status ≡ Status.ReadFault }
    ensures failed { result ≡ Status.WriteFault → Rose (K.faults out.old) (K.faults out.new) }
{
    match put_all(out, text) {
        Ok(()) => status,
        Err(SinkFault::Failed) => Status::WriteFault,
        Err(SinkFault::Memory) => Status::Memory,
    }
}

// Writes the line of a stop, and what it means.
fn explained<K: Sink>(alloc: Global, out: &mut K, stop: &Stop, text: &[u8]) -> Status
    requires reading { stop.now ≢ ReadFault }
    requires writing { IsOfReading stop.now }
    ensures told { IsCutShort result ⊎ TellsStop stop.now (K.written out.old) (K.written out.new) result }
    ensures read { result ≢ Status.ReadFault }
    ensures failed { result ≡ Status.WriteFault → Rose (K.faults out.old) (K.faults out.new) }
{
    let status = stop.report(alloc, out);
    match status {
        Status::WriteFault => Status::WriteFault,
        Status::Memory => Status::Memory,
        _ => written(out, text, status),
    }
}

// What the words ask for.
fn answer_to<H: Shelf>(alloc: Global, words: &[String], shelf: &mut H) -> Result<Answer, Stop>
    ensures failed { HasCause ReadFault (H.faults shelf.old) (H.faults shelf.new) result }
    ensures told { IfOk result (λ a. (files : Files) → H.files shelf.old ≡ Some files →
        (task : Task) × Asks (map string_bytes words.now) task × IsToldAnswer files task a) }
    ensures ok { IfOk result IsAnswer }
    ensures cause { IfErr result (λ stop. (files : Files) → H.files shelf.old ≡ Some files →
        IsOutside stop ⊎ StopsWords files (map string_bytes words.now) stop) }
    ensures err { IfErr result (λ stop. IsOfReading stop ⊎ (stop ≡ Usage)) }
{
    let task = asked(alloc, words)?;
    answer_of(alloc, task, shelf)
}

// What a task writes.
fn answer_of<H: Shelf>(alloc: Global, task: Task<'_>, shelf: &mut H) -> Result<Answer, Stop>
    ensures failed { HasCause ReadFault (H.faults shelf.old) (H.faults shelf.new) result }
    ensures told { IfOk result (λ a. (files : Files) → H.files shelf.old ≡ Some files → IsToldAnswer files task.entry a) }
    ensures ok { IfOk result IsAnswer }
    ensures cause { IfErr result (λ stop. (files : Files) → H.files shelf.old ≡ Some files →
        IsOutside stop ⊎ StopsAnswer files task.entry stop) }
    ensures err { IfErr result IsOfReading }
{
    match task {
        Task::Goal { project, name, at } => goal_answer(alloc, project, name, at, shelf),
        Task::List {
            project,
            is_open_only,
            as_json,
        } => list_answer(alloc, project, is_open_only, as_json, shelf),
        Task::Explain {
            file,
            calls,
            is_image,
        } => {
            let question = Question {
                file,
                calls,
                is_image,
            };
            explain_answer(alloc, question, shelf)
        }
        Task::Prune { project, file } => prune_answer(alloc, project, file, shelf),
        Task::Report { project, form } => report_answer(alloc, project, form, shelf),
        Task::Help => help_answer(alloc),
        Task::ManPage => man_answer(alloc),
    }
}
