ghost use Rattle.std.specs.Prelude.{◌≡◌, ◌≤◌, IfOk};
ghost use Rattle.std.specs.List.{flat_map};
ghost use Rattle.pf_run.specs.Computed.{run_of};
ghost use Rattle.pf_windows.specs.Told.{named_behind_sub};
ghost use Rattle.pf_windows.specs.Windows.{windows_records, windows_text};

use crate::slots::Slots;
use crate::task_windows::TaskWindows;
use crate::window_sheet::WindowSheet;
use pf_desk::snapshot::Snapshot;
use pf_tally::admitted::admitted_by_number;
use pf_tally::ledger::make_ledger;
use pf_tally::processors::{processors_by_task, processors_of};
use pf_text::pieces::{Chain, Whole};
use pf_text::sheets::SheetPieces;
use pf_text::table::Table;
use pf_vocabulary::name_column::column::push_heading;
use pf_vocabulary::names::titles::Titles;
use pf_vocabulary::tasks::task_list::TaskList;
use std::alloc::{AllocError, Global};

/// The windows that a snapshot shows in some of its slots, of each task of a list that was admitted, by its number.
fn window_sheets<'a>(
    alloc: Global,
    snapshot: &Snapshot,
    tasks: &TaskList,
    titles: &'a Titles,
    slots: Slots,
) -> Result<Vec<WindowSheet<'a>>, AllocError>
    requires { slots.now ≡ snapshot.now.state.now }
    ensures { IfOk result (λ v. flat_map (λ sheet. named_behind_sub sheet 0) v.items
        ≡ windows_records snapshot.now.state.plan (run_of snapshot.now.state.plan snapshot.now.state.now) snapshot.now.rows tasks.now titles.now slots) }
{
    // That the rows are those of the scenario's run is known from its calls alone.
    let _ = snapshot.now();
    let rows = snapshot.rows();
    let ledger = make_ledger(alloc, snapshot.scenario(), rows, snapshot.denials())?;
    let processors = processors_by_task(alloc, ledger.settings.processors(), rows)?;
    let admitted = admitted_by_number(alloc, ledger.settings, &ledger.events)?;
    let mut sheets = Vec::new(alloc);
    for task in &admitted {
        if tasks.has(task.task) {
            let ran = ledger.quanta(*task);
            let on = processors_of(&processors, *task);
            let diary = ledger.diary(*task);
            let told = TaskWindows::of(alloc, *task, ran, on, diary, slots)?;
            sheets.push(WindowSheet::new(told, titles))?;
        }
    }
    Ok(sheets)
}

/// The windows of tasks as a table, in pieces: the heading, and then the records.
pub type WindowPieces<'a> = Chain<Whole, SheetPieces<WindowSheet<'a>>>;

/// The windows of the tasks of a list as a table, in pieces, by task number, then by subtask: of each subtask that ran, or was
/// released before the task left, the job that it is of, the first slot in which it could run, its release and deadline, its
/// bit and its group deadline, and where it ran. Those are shown of which a slot, up to the task's leave, or the quantum is one
/// of the slots from `from` on and below `to`. In a plan the name of the task stands last, or nothing where it has none.
///
/// # Errors
///
/// Where memory is refused.
pub fn window_pieces<'a>(
    alloc: Global,
    snapshot: &Snapshot,
    tasks: &TaskList,
    titles: &'a Titles,
    from: u64,
    to: u64,
) -> Result<WindowPieces<'a>, AllocError>
    ensures { IfOk result (λ pieces. pieces ≡ windows_text snapshot.now tasks.now titles.now from to) }
{
    let mut table = Table::new(alloc);
    let texts = [
        "task",
        "sub",
        "job",
        "eligible",
        "release",
        "deadline",
        "bit",
        "group",
        "ran",
        "processor",
    ];
    push_heading(&mut table, &texts, titles)?;
    let heading = Whole::new(table.finish()?);
    let slots = Slots {
        now: snapshot.now(),
        from,
        to,
    };
    let sheets = window_sheets(alloc, snapshot, tasks, titles, slots)?;
    Ok(Chain::new(heading, SheetPieces::new(sheets)))
}
