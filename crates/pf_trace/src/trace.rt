ghost use Rattle.std.specs.Prelude.{◌≡◌, ◌==◌, ◌++◌, ◌≤◌, [], ℕ, find, cond, map, IfOk, OnOk};
ghost use Rattle.pf_weight.specs.declared.task.TheConstants.{LARGEST_TASK};
ghost use Rattle.pf_run.specs.Computed.{run_of};
ghost use Rattle.pf_scenario.specs.declared.settings.TheConstants.{WIDE_HORIZON};
ghost use Rattle.pf_collections.specs.Table.Lists.{noted_of};
ghost use Rattle.pf_trace.specs.Runs.{trace_at};
ghost use Rattle.pf_trace.specs.Titles.{title_of};
ghost use Rattle.pf_tally.specs.Levels.{levels_of};
ghost use Rattle.pf_trace.specs.Trace.{CanTrace, denial_of, moments_of, told_of, trace_text, traces_by};

use crate::book::BookPieces;
use crate::head::head;
use crate::moment::Moment;
use crate::run_book::RunBook;
use crate::run_ledger::{RunLedger, course_of, run_ledger};
use crate::task_trace::TaskTrace;
use crate::title::Title;
use pf_admit::denial::Denial;
use pf_collections::table::lists::Lists;
use pf_desk::snapshot::Snapshot;
use pf_run::denied::Denied;
use pf_scenario::event::Numbered;
use pf_tally::diary::diaries_by_task;
use pf_tally::level::Level;
use pf_tally::levels::levels;
use pf_text::pieces::{Chain, Whole};
use pf_vocabulary::names::titles::Titles;
use pf_weight::task::LARGEST_TASK;
use std::alloc::{AllocError, Global};

/// The denial of the event of this number, if it is denied.
fn denied_of(denials: &[Denied], id: u64) -> Option<Denied>
    ensures { result ≡ find (λ d. d.id == id) denials.now }
{
    denials.iter().copied().find(|denied| denied.id == id)
}

/// Why the event of this number is denied, if it is.
fn denial_of(denials: &[Denied], id: u64) -> Option<Denial>
    ensures { result ≡ denial_of denials.now id }
{
    match denied_of(denials, id) {
        Some(denied) => Some(denied.denial),
        None => None,
    }
}

/// These events, each with why it is denied.
fn moments_of(
    alloc: Global,
    events: &[Numbered],
    denials: &[Denied],
) -> Result<Vec<Moment>, AllocError>
    ensures { IfOk result (λ v. v.items ≡ moments_of denials.now events.now) }
{
    let mut moments = Vec::with_capacity(alloc, events.len())?;
    for numbered in events {
        moments.push(Moment {
            numbered: *numbered,
            denial: denial_of(denials, numbered.id),
        })?;
    }
    Ok(moments)
}

/// Notes what is told of a task whose events these are, if there are any.
fn note_task(
    alloc: Global,
    tasks: &mut Lists<TaskTrace>,
    titles: &Titles,
    run: &RunLedger,
    denials: &[Denied],
    events: &[Numbered],
    slot_count: u64,
    task: u64,
) -> Result<(), AllocError>
    requires number { task ≤ LARGEST_TASK }
    requires within { slot_count ≤ WIDE_HORIZON }
    requires can { CanTrace run.now.ledger run.now.admitted.items }
    ensures { OnOk result ((t : ℕ) → noted_of tasks.new t ≡ noted_of tasks.old t
        ++ cond (task == t) (traces_by (title_of titles.now task) run.now denials.now events.now slot_count task) []) }
{
    if events.is_empty() {
        return Ok(());
    }
    let title = Title::of(alloc, titles, task)?;
    let course = course_of(alloc, run, task)?;
    let moments = moments_of(alloc, events, denials)?;
    let trace = TaskTrace::new(title, task, course, moments, slot_count);
    tasks.note(task, trace)
}

/// By number, what is told of each task that has an event below now.
fn listed_tasks(
    alloc: Global,
    snapshot: &Snapshot,
    titles: &Titles,
) -> Result<Lists<TaskTrace>, AllocError>
    ensures { IfOk result (λ tasks. (task : ℕ) → trace_at tasks task ≡ told_of titles.now snapshot.now task) }
{
    let slots = snapshot.now();
    let denials = snapshot.denials();
    let held = snapshot.scenario().events_before(slots)?;
    let own = diaries_by_task(alloc, &held)?;
    let run = run_ledger(alloc, snapshot)?;
    let mut tasks = Lists::new(alloc);
    for task in 1..LARGEST_TASK + 1 {
        let events = own.get(task);
        note_task(
            alloc, &mut tasks, titles, &run, denials, events, slots, task,
        )?;
    }
    Ok(tasks)
}

/// The load and the room of the slots below now, where one of them changes.
fn levels_of(alloc: Global, snapshot: &Snapshot) -> Result<Vec<Level>, AllocError>
    ensures { IfOk result (λ v. v.items ≡ levels_of snapshot.now.state.plan (run_of snapshot.now.state.plan snapshot.now.state.now) 0 snapshot.now.state.now) }
{
    levels(
        alloc,
        snapshot.scenario(),
        snapshot.rows(),
        snapshot.denials(),
        0,
        snapshot.now(),
    )
}

/// Trace events in pieces: what stands before the tasks, these, and the end.
pub type TracePieces<'a> = Chain<Whole, Chain<BookPieces<RunBook<'a>>, Whole>>;

/// A run as trace events in pieces: a track for each processor, with its quanta; three for each task of which an event is held
/// below now, one with its quanta and events and two with its windows; and counters for load and room and for the lag of each
/// task. Tasks are called and times are told as the titles say.
///
/// # Errors
///
/// Where memory is refused.
pub fn trace_pieces<'a>(
    alloc: Global,
    snapshot: &'a Snapshot,
    titles: &Titles,
) -> Result<TracePieces<'a>, AllocError>
    ensures { IfOk result (λ pieces. pieces ≡ trace_text titles.now snapshot.now) }
{
    let head = head(
        alloc,
        &Title::of(alloc, titles, 0)?,
        snapshot.settings().processors(),
    )?;
    let title = Title::of(alloc, titles, 0)?;
    let tasks = listed_tasks(alloc, snapshot, titles)?;
    let levels = levels_of(alloc, snapshot)?;
    let book = RunBook::new(snapshot, title, tasks, levels);
    let end = Vec::from_slice(alloc, b"\n]}\n")?;
    Ok(Chain::new(
        Whole::new(head),
        Chain::new(BookPieces::new(book), Whole::new(end)),
    ))
}
