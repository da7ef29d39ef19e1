ghost use Rattle.std.specs.Prelude.{◌≡◌, ◌+◌, ◌^◌, ◌<◌, ◌≤◌, ◌&&◌, ℕ, nat_le, find, sum_by, All};
ghost use Rattle.pf_scenario.specs.declared.settings.TheConstants.{WIDE_HORIZON};
ghost use Rattle.pf_run.specs.Inside.{is_leave_of};
ghost use Rattle.pf_tally.specs.Held.{AreSuccessive, IsSmall};
ghost use Rattle.pf_tally.specs.Late.{hold_of, due_at, released_at};
ghost use Rattle.pf_tally.specs.Misses.{leaves_after};

use crate::admitted::Admitted;
use crate::held::Held;
use crate::inside::is_leave_of;
use pf_scenario::event::{Event, Numbered};
use pf_window::{deadline, release};

/// The task's leave, if it is among these events.
pub fn leave_of(events: &[Numbered], task: u64) -> Option<Numbered>
    ensures { result ≡ find (λ x. is_leave_of task x.event) events.now }
{
    events
        .iter()
        .copied()
        .find(|numbered| is_leave_of(task, &numbered.event))
}

/// The last slot by which a window of the task is missed: `now`, or the slot of its leave where that is before.
pub(crate) fn last_due(events: &[Numbered], task: Admitted, now: u64) -> u64
    ensures { (t : ℕ) → nat_le t result ≡ (nat_le t now && leaves_after events.now task t) }
{
    match leave_of(events, task.task) {
        Some(numbered) => match numbered.event {
            Event::Leave { slot, .. } => slot.min(now),
            _ => unreachable!(),
        },
        None => now,
    }
}

/// The shift of subtask i, in slots: the slot of its join and the delays that hold it back.
pub fn shift_at(task: Admitted, delays: &[Held], i: u64) -> u64
    requires chain { AreSuccessive 0 task.slot delays.now }
    requires small { All IsSmall delays.now }
    requires joined { task.slot < WIDE_HORIZON }
    ensures value { result ≡ task.slot + sum_by (hold_of i) delays.now }
    ensures bound { result < 2 ^ 41 }
{
    let count = delays.partition_point(|held| held.sub <= i);
    if count == 0 {
        return task.slot;
    }
    let last = delays[count - 1];
    last.shift + last.by
}

/// The shifted deadline of subtask i (1 to 2^24).
pub(crate) fn due_of(task: Admitted, delays: &[Held], i: u32) -> u64
    requires first { 1 ≤ i }
    requires last { i ≤ 2 ^ 24 }
    requires chain { AreSuccessive 0 task.slot delays.now }
    requires small { All IsSmall delays.now }
    requires joined { task.slot < WIDE_HORIZON }
    ensures { result ≡ due_at task delays.now i }
{
    deadline(task.weight, i) + shift_at(task, delays, u64::from(i))
}

/// The shifted release of subtask i (1 to 2^24).
pub(crate) fn released_of(task: Admitted, delays: &[Held], i: u32) -> u64
    requires first { 1 ≤ i }
    requires last { i ≤ 2 ^ 24 }
    requires chain { AreSuccessive 0 task.slot delays.now }
    requires small { All IsSmall delays.now }
    requires joined { task.slot < WIDE_HORIZON }
    ensures value { result ≡ released_at task delays.now i }
    ensures bound { result < 2 ^ 55 }
{
    release(task.weight, i) + shift_at(task, delays, u64::from(i))
}
