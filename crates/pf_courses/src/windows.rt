ghost use Rattle.std.specs.Prelude.{◌≡◌, ◌+◌, ◌<◌, ◌≤◌, ◌^◌, true, ◌&&◌, ◌||◌, nat_le, nat_lt, is_some, if◌then◌else◌, All, IfOk};
ghost use Rattle.std.specs.Option.{option_map_or};
ghost use Rattle.pf_weight.specs.Share.{is_heavy};
ghost use Rattle.pf_window.specs.Group.{group_of};
ghost use Rattle.pf_tally.specs.Held.{AreSuccessive, IsSmall};
ghost use Rattle.pf_courses.specs.Built.{quantum_with, window_by, windows_by};
ghost use Rattle.pf_courses.specs.Course.{is_drawn};
ghost use Rattle.pf_courses.specs.Windows.{eligible_from, window_end};

use crate::quantum::Quantum;
use crate::window::Window;
use pf_tally::admitted::Admitted;
use pf_tally::held::Held;
use pf_tally::late::shift_at;
use pf_weight::weight::Weight;
use pf_window::{bit, deadline, group, release};
use std::alloc::{AllocError, Global};

/// The quantum of this slot on this processor.
fn quantum_with(slot: Option<u64>, processor: Option<u32>) -> Option<Quantum>
    ensures { result ≡ quantum_with slot processor }
{
    match (slot, processor) {
        (Some(slot), Some(processor)) => Some(Quantum { slot, processor }),
        _ => None,
    }
}

/// Whether a subtask with this deadline, which ran in that slot, missed its window by the task's end.
fn is_late(due: u64, ran: Option<u64>, end: u64) -> bool
    ensures { result ≡ (nat_le due end && option_map_or (λ t. nat_le due t) ran true) }
{
    if due > end {
        return false;
    }
    match ran {
        Some(slot) => due <= slot,
        None => true,
    }
}

/// The group deadline of subtask i, with this shift; 0 of a light task.
fn group_due(weight: Weight, i: u32, shift: u64) -> u64
    requires first { 1 ≤ i }
    requires last { i ≤ 2 ^ 24 }
    requires shift { shift < 2 ^ 41 }
    ensures { result ≡ (if is_heavy weight then group_of weight i + shift else 0) }
{
    if weight.is_heavy() {
        group(weight, i) + shift
    } else {
        0
    }
}

/// The window of subtask i (1 to 2^24) of a task with this end, which ran in the slots `ran`, on these processors, and was
/// delayed so.
pub fn window_of(
    task: Admitted,
    ran: &[u64],
    on: &[u32],
    delays: &[Held],
    end: u64,
    i: u32,
) -> Window
    requires first { 1 ≤ i }
    requires last { i ≤ 2 ^ 24 }
    requires chain { AreSuccessive 0 task.slot delays.now }
    requires small { All IsSmall delays.now }
    requires joined { task.slot < 2 ^ 22 }
    ensures { result ≡ window_by task ran.now on.now delays.now end i }
{
    let shift = shift_at(task, delays, u64::from(i));
    let due = deadline(task.weight, i) + shift;
    let slot = ran.get(i as usize - 1).copied();
    let processor = on.get(i as usize - 1).copied();
    Window {
        sub: u64::from(i),
        release: release(task.weight, i) + shift,
        deadline: due,
        bit: bit(task.weight, i),
        group: group_due(task.weight, i, shift),
        late: is_late(due, slot, end),
        ran: quantum_with(slot, processor),
    }
}

/// The first slot in which a subtask released in slot r may run, once the one before it has run.
pub fn eligible_from(task: Admitted, release: u64) -> u64
    ensures { result ≡ eligible_from task release }
{
    task.slot.max(release.saturating_sub(task.early))
}

/// Where the window of a task that left then ends.
pub fn window_end(window: Window, leave: Option<u64>) -> u64
    ensures { result ≡ window_end leave window }
{
    match leave {
        Some(slot) => window.deadline.min(slot),
        None => window.deadline,
    }
}

/// Whether the subtask is drawn: it ran, or was released before the task's end.
pub fn is_drawn(window: Window, end: u64) -> bool
    ensures { result ≡ is_drawn end window }
{
    window.ran.is_some() || window.release < end
}

/// Those of the first `count` subtasks of a task with this end that are drawn.
pub(crate) fn windows_of(
    alloc: Global,
    task: Admitted,
    ran: &[u64],
    on: &[u32],
    delays: &[Held],
    end: u64,
    count: u32,
) -> Result<Vec<Window>, AllocError>
    requires chain { AreSuccessive 0 task.slot delays.now }
    requires small { All IsSmall delays.now }
    requires joined { task.slot < 2 ^ 22 }
    requires within { count ≤ 2 ^ 22 }
    ensures { IfOk result (λ v. v.items ≡ windows_by task ran.now on.now delays.now end count) }
{
    let mut windows = Vec::new(alloc);
    for i in 1..count + 1 {
        let window = window_of(task, ran, on, delays, end, i);
        if is_drawn(window, end) {
            windows.push(window)?;
        }
    }
    Ok(windows)
}
