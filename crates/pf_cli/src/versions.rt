ghost use Rattle.std.specs.Prelude.{◌≡◌, ◌-◌, ◌^◌, ◌<◌, ◌≤◌, ℕ, List, [], length, IfOk, IfErr};
ghost use Rattle.pf_vocabulary.specs.Fault.Faults.{CountsWrites, IsUnwritten};
ghost use Rattle.pf_stream.specs.Reading.{longest_script};
ghost use Rattle.pf_plain_script.specs.Plain.{IsPlain, Plain};
ghost use Rattle.pf_arguments.specs.Asked.{IsSound};
ghost use Rattle.pf_cli.specs.Ends.{LeavesDesk, outcome_of};
ghost use Rattle.pf_cli.specs.Noted.{AreNotesOf, noting_behind, noting_of};
ghost use Rattle.pf_cli.specs.Tasks.{IsCarriedOut, IsOfScript, IsQuietIfDone};
ghost use Rattle.pf_cli.specs.Versions.{AnswersBytes, AnswersRecords, AnswersShort, AnswersVersion, count_below, number_from, numbered, numbered_fault, since_in, task_in};

use crate::answering::write_answer;
use crate::noted::Noted;
use crate::notes::{end_with_notes, with_notes};
use crate::noting::Noting;
use crate::task_end::TaskEnd;
use crate::tasks::do_task;
use crate::text_answer::text_answer;
use pf_arguments::task::Task;
use pf_arguments::telling::Telling;
use pf_plain_script::origin::Origin;
use pf_plain_script::plain::{PlainScript, plain_script};
use pf_stream::reading::LONGEST_SCRIPT;
use pf_stream::sink::Sink;
use pf_vocabulary::fault::fault::Fault;
use pf_vocabulary::names::titles::Titles;
use std::alloc::Global;
use std::sync::Wait;
use std::thread::Threads;

/// Does a task with a script of these bytes, of any version: with a plan by the script of version 2 that belongs to
/// it; or with a list of tasks of these bytes, where that is what the task or the bytes are for. Has its notes, where they are asked for. The outcome is a fault of
/// the task; `Write` where the writer fails or takes nothing. The writer's count of failures must be below `u64::MAX` before the call.
pub(crate) fn do_script<H: AllocGlobal + Threads + Wait + Sync, W: Sink>(
    rt: &H,
    task: Task,
    file: &[u8],
    telling: Telling,
    script: &[u8],
    writer: &mut W,
) -> Noted
    requires short { length script.now ≤ longest_script }
    requires sound { IsSound task }
    requires writes { W.failed writer.old < 2 ^ 64 - 1 }
    ensures answers { AnswersBytes telling.notes task file.now script.now result.outcome (W.contents writer.old) (W.contents writer.new) }
    ensures notes { AreNotesOf (noting_behind (noting_of telling task) result.outcome) file.now script.now result.outcome result.notes }
    ensures quiet { IsOfScript task → IfOk result.outcome IsQuietIfDone }
    ensures writes { CountsWrites result.outcome (W.failed writer.old) (W.failed writer.new) }
{
    let noting = Noting::of(telling, &task);
    match text_answer(rt.alloc(), &task, file, script, noting.hints) {
        Some(made) => {
            let outcome = write_answer(made, writer);
            with_notes(rt.alloc(), noting, file, script, outcome)
        }
        None => do_version(rt, task, noting, file, script, writer),
    }
}

/// The same with a script that is carried out.
#[tactic(auto, using(crate::proofs::RunNotes::plan_text, crate::proofs::RunNotes::own_text))]
fn do_version<H: AllocGlobal + Threads + Wait + Sync, W: Sink>(
    rt: &H,
    task: Task,
    noting: Noting,
    file: &[u8],
    script: &[u8],
    writer: &mut W,
) -> Noted
    requires short { length script.now ≤ longest_script }
    requires carried { IsCarriedOut task }
    requires writes { W.failed writer.old < 2 ^ 64 - 1 }
    ensures answers { AnswersVersion noting.hints task file.now script.now result.outcome (W.contents writer.old) (W.contents writer.new) }
    ensures notes { AreNotesOf (noting_behind noting result.outcome) file.now script.now result.outcome result.notes }
    ensures quiet { IfOk result.outcome IsQuietIfDone }
    ensures writes { CountsWrites result.outcome (W.failed writer.old) (W.failed writer.new) }
{
    let alloc = rt.alloc();
    match plain_script(alloc, script) {
        Ok(Some(plain)) => {
            let end = do_plain(rt, task, noting.hints, file, &plain, writer);
            let origins = plain.origins.as_slice();
            let names = &plain.titles.names;
            end_with_notes(
                alloc,
                noting,
                file,
                script,
                &plain.text,
                Some(origins),
                names,
                end,
            )
        }
        Ok(None) => {
            let titles = Titles::none(alloc);
            let end = do_task(rt, task, noting.hints, file, script, &titles, None, writer);
            end_with_notes(
                alloc,
                noting,
                file,
                script,
                script,
                None,
                &titles.names,
                end,
            )
        }
        Err(_) => with_notes(alloc, noting, file, script, Err(Fault::NoMemory)),
    }
}

/// Does a task with this script of version 2, and tells records by their numbers in that of a plan.
fn do_plain<H: AllocGlobal + Threads + Wait + Sync, W: Sink>(
    rt: &H,
    task: Task,
    hints: bool,
    file: &[u8],
    plain: &PlainScript,
    writer: &mut W,
) -> TaskEnd
    requires carried { IsCarriedOut task }
    requires writes { W.failed writer.old < 2 ^ 64 - 1 }
    ensures answers { (p : Plain) → IsPlain plain.now p → AnswersShort p hints task file.now (outcome_of result) (W.contents writer.old) (W.contents writer.new) }
    ensures desk { LeavesDesk plain.now.text.items result }
    ensures quiet { IfOk (outcome_of result) IsQuietIfDone }
    ensures writes { CountsWrites (outcome_of result) (W.failed writer.old) (W.failed writer.new) }
{
    if plain.text.len() > LONGEST_SCRIPT {
        return TaskEnd::Other(Err(Fault::TooLong));
    }
    let end = do_records(rt, task, hints, file, plain, writer);
    numbered(&plain.origins, end)
}

/// The same, with bad records by the numbers that they have in this script.
fn do_records<H: AllocGlobal + Threads + Wait + Sync, W: Sink>(
    rt: &H,
    task: Task,
    hints: bool,
    file: &[u8],
    plain: &PlainScript,
    writer: &mut W,
) -> TaskEnd
    requires short { length plain.now.text.items ≤ longest_script }
    requires carried { IsCarriedOut task }
    requires writes { W.failed writer.old < 2 ^ 64 - 1 }
    ensures answers { (p : Plain) → IsPlain plain.now p → AnswersRecords p hints task file.now (outcome_of result) (W.contents writer.old) (W.contents writer.new) }
    ensures desk { LeavesDesk plain.now.text.items result }
    ensures quiet { IfOk (outcome_of result) IsQuietIfDone }
    ensures writes { CountsWrites (outcome_of result) (W.failed writer.old) (W.failed writer.new) }
{
    let told = task_in(task, plain);
    let origins = plain.origins.as_slice();
    do_task(
        rt,
        told,
        hints,
        file,
        &plain.text,
        &plain.titles,
        Some(origins),
        writer,
    )
}

/// The task with the script of version 2: what its records from one on changed, where the one is told by its number in the
/// plan.
fn task_in(task: Task, plain: &PlainScript) -> Task
    requires { IsCarriedOut task }
    ensures carried { IsCarriedOut result }
    ensures value { (p : Plain) → IsPlain plain.now p → result ≡ task_in p task }
{
    match task {
        Task::Diff(since, options) => Task::Diff(Some(since_in(plain, since)), options),
        _ => task,
    }
}

/// The number of the first record that comes from this record or a later one, the last one where none is given.
fn since_in(plain: &PlainScript, since: Option<u64>) -> u64
    ensures { (p : Plain) → IsPlain plain.now p → result ≡ since_in p since }
{
    let number = match since {
        Some(number) => number,
        None => plain.last,
    };
    count_below(&plain.origins, number) + 1
}

/// How many come from a record before this one.
fn count_below(origins: &[Origin], number: u64) -> u64
    ensures count { result ≡ count_below number origins.now }
    ensures within { result ≤ length origins.now }
{
    let mut count = 0;
    for origin in origins {
        if origin.number < number {
            count += 1;
        }
    }
    count
}

/// The same end, with the number of the record that a bad one comes from.
fn numbered(origins: &[Origin], end: TaskEnd) -> TaskEnd
    ensures outcome { outcome_of result ≡ numbered origins.now (outcome_of end) }
    ensures desk { (script : List ℕ) → LeavesDesk script end → LeavesDesk script result }
{
    match end {
        TaskEnd::Ran(ran) => TaskEnd::Ran(ran),
        TaskEnd::Other(Ok(ending)) => TaskEnd::Other(Ok(ending)),
        TaskEnd::Other(Err(fault)) => TaskEnd::Other(Err(numbered_fault(origins, fault))),
    }
}

/// The same fault, with the number of the record that a bad one comes from.
pub(crate) fn numbered_fault(origins: &[Origin], fault: Fault) -> Fault
    ensures { result ≡ numbered_fault origins.now fault }
{
    match fault {
        Fault::BadRecord(number) => Fault::BadRecord(number_from(origins, number)),
        fault => fault,
    }
}

/// The number of the record that the one of this number comes from.
fn number_from(origins: &[Origin], number: u64) -> u64
    ensures { result ≡ number_from origins.now number }
{
    if number == 0 || number > origins.len() as u64 {
        return number;
    }
    origins[number as usize - 1].number
}
