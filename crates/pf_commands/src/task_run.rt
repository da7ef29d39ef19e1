ghost use Rattle.std.specs.Prelude.{◌≡◌, ◌-◌, ◌^◌, ◌<◌, [], None, IfOk, OnOk, OnErr, string_bytes};
ghost use Rattle.std.specs.Io.KnownBytes.{Appends};
ghost use Rattle.pf_vocabulary.specs.declared.fault.status.Status.TheVariants.{Done};
ghost use Rattle.pf_vocabulary.specs.Fault.Faults.{CountsWrites};
ghost use Rattle.pf_formats.specs.TaskReport.{task_report_text};
ghost use Rattle.pf_vocabulary.specs.Options.Formats.{range_fault};
ghost use Rattle.pf_stream.specs.Written.{CountsOutput, TookFront};
ghost use Rattle.pf_commands.specs.Answers.{Answers};
ghost use Rattle.pf_commands.specs.Ended.{is_failing, run_status};
ghost use Rattle.pf_replies.specs.Course.{course_at};
ghost use Rattle.pf_commands.specs.Tasks.{AnswersListed, IsUnnamed, RunsTasks, tasks_meaning, unnamed_line};
ghost use Rattle.pf_vocabulary.specs.TaskWords.Finding.{unnamed_in};

use crate::failing::status_of;
use crate::run::write_whole;
use pf_desk::desk::Desk;
use pf_desk::snapshot::Snapshot;
use pf_formats::task_report::task_report_pieces;
use pf_replies::at_end::desk_at_end;
use pf_stream::output_fault::OutputFault;
use pf_stream::sink::Sink;
use pf_vocabulary::fault::ending::Ending;
use pf_vocabulary::fault::fault::Fault;
use pf_vocabulary::fault::status::Status;
use pf_vocabulary::names::name::Name;
use pf_vocabulary::names::titles::Titles;
use pf_vocabulary::options::fail_on::FailOn;
use pf_vocabulary::options::format::Format;
use pf_vocabulary::task_words::task_words::TaskWords;
use pf_vocabulary::tasks::task_list::TaskList;
use std::alloc::{AllocError, Global};

/// Carries out a script of these bytes, and writes what a format without replies shows of the tasks of a list alone: of those whose
/// numbers it has, and of those that have its names at the script's end. The status is `FailedOn` where the run fails on what is
/// listed, else `Done`. A name that is that of no task is told, with the status `BadWords`, and nothing is written. The
/// writer's count of failures must be below `u64::MAX` before the call.
///
/// # Errors
///
/// `BadRecord` at a record that is none of the script's, and `BadRange` where no record is bad, each name is that of a task, and
/// the range of the format can't be shown of the slots stepped: nothing was written. `Write` where the writer fails or takes
/// nothing, and `NoMemory` where memory is refused: a front of the text was written.
#[tactic(auto, using(crate::proofs::Listed::ended_listed, crate::proofs::Listed::stopped_unwritten, crate::proofs::Listed::stopped_counts))]
pub fn run_tasks<W: Sink>(
    alloc: Global,
    script: &[u8],
    writer: &mut W,
    format: Format,
    titles: &Titles,
    words: &TaskWords,
    fail_on: FailOn,
) -> Result<Ending, Fault>
    requires writes { W.failed writer.old < 2 ^ 64 - 1 }
    ensures answers { RunsTasks format titles.now words.now fail_on script.now result (W.contents writer.old) (W.contents writer.new) }
    ensures quiet { IfOk result (λ ending. ending.status ≡ Done → ending.notes.items ≡ []) }
    ensures writes { CountsWrites result (W.failed writer.old) (W.failed writer.new) }
{
    match desk_at_end(alloc, script) {
        Ok(desk) => answer_tasks(alloc, &desk, writer, format, titles, words, fail_on),
        Err(fault) => Err(fault),
    }
}

/// The answer to a list of tasks of a desk at a script's end.
#[tactic(auto, using(crate::proofs::Listed::unlisted))]
fn answer_tasks<W: Sink>(
    alloc: Global,
    desk: &Desk,
    writer: &mut W,
    format: Format,
    titles: &Titles,
    words: &TaskWords,
    fail_on: FailOn,
) -> Result<Ending, Fault>
    requires writes { W.failed writer.old < 2 ^ 64 - 1 }
    ensures answers { AnswersListed format titles.now words.now fail_on (course_at desk.now) (unnamed_in titles.now.names words.now) result (W.contents writer.old) (W.contents writer.new) }
    ensures quiet { IfOk result (λ ending. ending.status ≡ Done → ending.notes.items ≡ []) }
    ensures writes { CountsWrites result (W.failed writer.old) (W.failed writer.new) }
{
    match words.unnamed(&titles.names) {
        Some(name) => Ok(unnamed_ending(alloc, name)?),
        None => {
            let tasks = words.tasks(alloc, &titles.names)?;
            end_tasks(alloc, desk, writer, format, titles, tasks, fail_on)
        }
    }
}

/// What is told of a name that is that of no task.
fn unnamed_ending(alloc: Global, name: &Name) -> Result<Ending, AllocError>
    ensures { IfOk result (IsUnnamed name.now) }
{
    let line = unnamed_line(alloc, name)?;
    Ok(Ending {
        status: Status::BadWords,
        notes: line.into_bytes(),
    })
}

/// That a name is that of no task.
fn unnamed_line(alloc: Global, name: &Name) -> Result<String, AllocError>
    ensures { IfOk result (λ line. string_bytes line ≡ unnamed_line name.now) }
{
    format!(in alloc; "\"{}\" names no task\n", name.as_str())
}

/// Writes what is shown of these tasks, and answers whether the run fails on what is listed.
fn end_tasks<W: Sink>(
    alloc: Global,
    desk: &Desk,
    writer: &mut W,
    format: Format,
    titles: &Titles,
    tasks: TaskList,
    fail_on: FailOn,
) -> Result<Ending, Fault>
    requires writes { W.failed writer.old < 2 ^ 64 - 1 }
    ensures answers { Answers (tasks_meaning format titles.now tasks (course_at desk.now)) result (W.contents writer.old) (W.contents writer.new) }
    ensures status { IfOk result (λ ending. ending.status ≡ run_status (is_failing fail_on (course_at desk.now))) }
    ensures quiet { IfOk result (λ ending. ending.notes.items ≡ []) }
    ensures writes { CountsWrites result (W.failed writer.old) (W.failed writer.new) }
{
    match write_tasks(alloc, desk, writer, format, titles, tasks) {
        Ok(()) => Ok(Ending::quiet(alloc, status_of(desk, fail_on)?)),
        Err(fault) => Err(fault),
    }
}

/// Writes what is shown of these tasks, where the format can be shown of the slots stepped.
fn write_tasks<W: Sink>(
    alloc: Global,
    desk: &Desk,
    writer: &mut W,
    format: Format,
    titles: &Titles,
    tasks: TaskList,
) -> Result<(), Fault>
    requires writes { W.failed writer.old < 2 ^ 64 - 1 }
    ensures report { Answers (tasks_meaning format titles.now tasks (course_at desk.now)) result (W.contents writer.old) (W.contents writer.new) }
    ensures writes { CountsWrites result (W.failed writer.old) (W.failed writer.new) }
{
    if let Some(fault) = format.range_fault(desk.now()) {
        return Err(Fault::BadRange(fault));
    }
    let snapshot = desk.snapshot()?;
    let written = write_listed(alloc, &snapshot, writer, format, titles, tasks);
    drop(snapshot);
    Ok(written?)
}

/// Writes what is shown of these tasks, of what is seen. A call of its own, so that none of its ways out drops the snapshot.
fn write_listed<W: Sink>(
    alloc: Global,
    seen: &Snapshot,
    writer: &mut W,
    format: Format,
    titles: &Titles,
    tasks: TaskList,
) -> Result<(), OutputFault>
    requires fits { range_fault format seen.now.state.now ≡ None }
    requires writes { W.failed writer.old < 2 ^ 64 - 1 }
    ensures ok { OnOk result (Appends (W.contents writer.old) (W.contents writer.new) (task_report_text format seen.now titles.now tasks)) }
    ensures err { OnErr result (TookFront (W.contents writer.old) (W.contents writer.new) (task_report_text format seen.now titles.now tasks)) }
    ensures count { CountsOutput result (W.failed writer.old) (W.failed writer.new) }
{
    let report = task_report_pieces(alloc, seen, format, titles, tasks)?;
    write_whole(alloc, report, writer)
}
