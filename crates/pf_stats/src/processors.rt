ghost use Rattle.std.specs.Prelude.{◌≡◌, ◌≤◌, [], nat_eq, is_some, if◌then◌else◌, length, IfOk, OnOk};
ghost use Rattle.std.specs.Option.{option_eq};
ghost use Rattle.pf_place.specs.Lent.{lent_row};
ghost use Rattle.pf_text.specs.Page.{with_record};
ghost use Rattle.pf_stats.specs.Processors.{changes_on, processor_record, processors_text, quanta_on, task_on};

use pf_desk::rows::{row_at, row_count};
use pf_desk::snapshot::Snapshot;
use pf_place::row_view::RowView;
use pf_text::table::Table;
use std::alloc::{AllocError, Global};

/// The task on a processor in a row.
fn task_on(row: RowView<'_>, processor: u32) -> Option<u32>
    ensures { result ≡ task_on processor (lent_row row.entry) }
{
    let pick = row.get(processor)?;
    Some(pick.task)
}

/// 1 where there is a task.
fn one_if_busy(task: Option<u32>) -> u64
    ensures { result ≡ (if is_some task then 1 else 0) }
{
    match task {
        Some(_) => 1,
        None => 0,
    }
}

/// 1 where the two are not the same.
fn one_if_other(before: Option<u32>, task: Option<u32>) -> u64
    ensures { result ≡ (if option_eq nat_eq before task then 0 else 1) }
{
    match (before, task) {
        (None, None) => 0,
        (Some(x), Some(y)) if x == y => 0,
        _ => 1,
    }
}

/// How many quanta a processor gave.
fn quanta_on(snapshot: &Snapshot, processor: u32) -> u64
    ensures value { result ≡ quanta_on processor snapshot.now.rows }
    ensures most { result ≤ length snapshot.now.rows }
{
    let mut quanta = 0;
    for t in 0..row_count(snapshot) {
        let task = task_on(row_at(snapshot, t), processor);
        quanta += one_if_busy(task);
    }
    quanta
}

/// In how many slots the task on a processor is another than in the slot before.
fn changes_on(snapshot: &Snapshot, processor: u32) -> u64
    ensures { result ≡ changes_on processor snapshot.now.rows }
{
    let slots = row_count(snapshot);
    if slots == 0 {
        return 0;
    }
    let mut changes = 0;
    let mut before = task_on(row_at(snapshot, 0), processor);
    for t in 1..slots {
        let task = task_on(row_at(snapshot, t), processor);
        changes += one_if_other(before, task);
        before = task;
    }
    changes
}

/// Adds the record of a processor.
fn push_processor(table: &mut Table, snapshot: &Snapshot, processor: u32) -> Result<(), AllocError>
    requires { table.old.fields ≡ [] }
    ensures { OnOk result (table.new ≡ with_record table.old (processor_record snapshot.now.rows processor)) }
{
    let quanta = quanta_on(snapshot, processor);
    table.show_number(u64::from(processor))?;
    table.show_number(quanta)?;
    table.show_number(row_count(snapshot) - quanta)?;
    table.show_number(changes_on(snapshot, processor))?;
    table.end_record()
}

/// How each processor was used in the slots below now, as a table: the quanta that it gave, the slots in which it was
/// idle or out of use, and the slots in which the task on it is another than in the slot before, nobody being one too.
///
/// # Errors
///
/// Where memory is refused.
pub fn processors_csv(alloc: Global, snapshot: &Snapshot) -> Result<Vec<u8>, AllocError>
    ensures { IfOk result (λ text. text.items ≡ processors_text snapshot.now) }
{
    let mut table = Table::new(alloc);
    table.push_texts(&["processor", "quanta", "idle", "changes"])?;
    for processor in 0..snapshot.settings().processors() {
        push_processor(&mut table, snapshot, processor)?;
    }
    table.finish()
}
