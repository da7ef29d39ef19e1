ghost use Rattle.std.specs.Prelude.{◌-◌, ◌^◌, ◌<◌, ◌≤◌, length, option_map, IfOk};
ghost use Rattle.pf_vocabulary.specs.Fault.Faults.{CountsWrites, IsUnwritten};
ghost use Rattle.pf_stream.specs.Reading.{longest_script};
ghost use Rattle.pf_cli.specs.Ends.{LeavesDesk, outcome_of};
ghost use Rattle.pf_cli.specs.Tasks.{AnswersTask, IsCarriedOut, IsQuietIfDone, RunsScript};

use crate::answering::write_answer;
use crate::open_gate::OpenGate;
use crate::task_end::TaskEnd;
use pf_arguments::task::Task;
use pf_change::diff::diff;
use pf_commands::run::run;
use pf_commands::task_run::run_tasks;
use pf_drill::drill::drill;
use pf_fit_command::fit::fit;
use pf_plain_script::origin::Origin;
use pf_stream::sink::Sink;
use pf_vocabulary::fault::fault::Fault;
use pf_vocabulary::names::titles::Titles;
use pf_vocabulary::options::fail_on::FailOn;
use pf_vocabulary::options::format::Format;
use pf_why_answer::why::why;
use std::alloc::Global;
use std::sync::Wait;
use std::thread::Threads;

/// Does a task that carries a script out, of these bytes, which has these titles, in the file of this name, and writes what it answers. Where the
/// script belongs to a plan, `origins` are the records there that its own come from. Threads are started for a drill alone,
/// and the call waits for them. Where it was not done, its fault is the outcome: `Write` where the writer fails or takes nothing. The
/// writer's count of failures must be below `u64::MAX` before the call.
pub(crate) fn do_task<H: AllocGlobal + Threads + Wait + Sync, W: Sink>(
    rt: &H,
    task: Task,
    hints: bool,
    file: &[u8],
    script: &[u8],
    titles: &Titles,
    origins: Option<&[Origin]>,
    writer: &mut W,
) -> TaskEnd
    requires short { length script.now ≤ longest_script }
    requires carried { IsCarriedOut task }
    requires writes { W.failed writer.old < 2 ^ 64 - 1 }
    ensures answers { AnswersTask titles.now (option_map (λ o. o.now) origins.entry) hints task file.now script.now (outcome_of result) (W.contents writer.old) (W.contents writer.new) }
    ensures desk { LeavesDesk script.now result }
    ensures quiet { IfOk (outcome_of result) IsQuietIfDone }
    ensures writes { CountsWrites (outcome_of result) (W.failed writer.old) (W.failed writer.new) }
{
    let alloc = rt.alloc();
    match task {
        Task::Run(format, fail_on) => {
            run_script(alloc, script, writer, format, titles, origins, fail_on)
        }
        Task::RunTasks(format, words, fail_on) => TaskEnd::Other(run_tasks(
            alloc, script, writer, format, titles, &words, fail_on,
        )),
        Task::Diff(since, options) => {
            TaskEnd::Other(write_answer(diff(alloc, script, since, options), writer))
        }
        Task::Drill => TaskEnd::Other(write_answer(drill(rt, alloc, script, &OpenGate), writer)),
        Task::Check | Task::CheckRun | Task::Convert(_) => unreachable!(),
        Task::Fit(asked) => TaskEnd::Other(write_answer(
            fit(alloc, asked.format, file, hints, script, origins, titles),
            writer,
        )),
        Task::Why(question) => TaskEnd::Other(write_answer(
            why(alloc, script, &titles.names, &question),
            writer,
        )),
    }
}

/// Runs a script, and keeps the desk that carried it out.
fn run_script<W: Sink>(
    alloc: Global,
    script: &[u8],
    writer: &mut W,
    format: Format,
    titles: &Titles,
    origins: Option<&[Origin]>,
    fail_on: FailOn,
) -> TaskEnd
    requires short { length script.now ≤ longest_script }
    requires writes { W.failed writer.old < 2 ^ 64 - 1 }
    ensures runs { RunsScript format titles.now (option_map (λ o. o.now) origins.entry) fail_on script.now (outcome_of result) (W.contents writer.old) (W.contents writer.new) }
    ensures desk { LeavesDesk script.now result }
    ensures quiet { IfOk (outcome_of result) IsQuietIfDone }
    ensures writes { CountsWrites (outcome_of result) (W.failed writer.old) (W.failed writer.new) }
{
    match run(alloc, script, writer, format, titles, origins, fail_on) {
        Ok(ran) => TaskEnd::Ran(ran),
        Err(fault) => TaskEnd::Other(Err(fault)),
    }
}
