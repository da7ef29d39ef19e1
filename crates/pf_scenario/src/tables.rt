ghost use Rattle.std.specs.Prelude.{◌≡◌, ◌==◌, ◌&&◌, not, ℕ, ◌<◌, ◌≤◌, length, slice_index, OnOk, IfSome};
ghost use Rattle.pf_scenario.specs.Event.{task_of};
ghost use Rattle.pf_scenario.specs.Index.{is_join_of, is_leave_of, HasTaskRoom, Notes};

use crate::event::Event;
use pf_weight::task::LARGEST_TASK;
use std::alloc::AllocError;

/// Whether a number is noted for the task, other than this one.
pub fn notes_other(table: &[u64], task: u64, id: u64) -> bool
    ensures { result ≡ (not (slice_index table.now task == 0) && not (slice_index table.now task == id)) }
{
    let number = table.get(task as usize).copied().unwrap_or(0);
    number != 0 && number != id
}

/// Makes a place for the task. No entry changes.
fn grow(table: &mut Vec<u64>, task: u64) -> Result<(), AllocError>
    requires { task ≤ LARGEST_TASK }
    ensures same { (k : ℕ) → slice_index table.new.items k ≡ slice_index table.old.items k }
    ensures ok { OnOk result (task < length table.new.items) }
{
    let wanted = task as usize + 1;
    if table.len() < wanted {
        table.resize(wanted, 0)?;
    }
    Ok(())
}

/// Makes a place for the task of a join or a leave. No entry changes.
pub fn grow_for(
    joins: &mut Vec<u64>,
    leaves: &mut Vec<u64>,
    event: &Event,
) -> Result<(), AllocError>
    requires { IfSome (task_of event.now) (λ task. task ≤ LARGEST_TASK) }
    ensures joins { (k : ℕ) → slice_index joins.new.items k ≡ slice_index joins.old.items k }
    ensures leaves { (k : ℕ) → slice_index leaves.new.items k ≡ slice_index leaves.old.items k }
    ensures ok { OnOk result (HasTaskRoom joins.new.items leaves.new.items event.now) }
{
    match *event {
        Event::Join { task, .. } => grow(joins, task),
        Event::Leave { task, .. } => grow(leaves, task),
        Event::Delay { .. } | Event::Limit { .. } => Ok(()),
    }
}

/// Notes the number for the task of a join or a leave.
pub fn note(joins: &mut Vec<u64>, leaves: &mut Vec<u64>, event: &Event, number: u64)
    requires { HasTaskRoom joins.old.items leaves.old.items event.now }
    ensures joins { Notes is_join_of joins.old.items joins.new.items event.now number }
    ensures leaves { Notes is_leave_of leaves.old.items leaves.new.items event.now number }
    ensures join_places { length joins.new.items ≡ length joins.old.items }
    ensures leave_places { length leaves.new.items ≡ length leaves.old.items }
{
    match *event {
        Event::Join { task, .. } => joins[task as usize] = number,
        Event::Leave { task, .. } => leaves[task as usize] = number,
        Event::Delay { .. } | Event::Limit { .. } => {}
    }
}
