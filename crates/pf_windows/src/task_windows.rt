ghost use Rattle.std.specs.Prelude.{◌≡◌};
ghost use Rattle.pf_windows.specs.Windows.{lies_within};

use crate::slots::Slots;
use pf_courses::end::{end_of, leave_slot};
use pf_courses::window::Window;
use pf_courses::windows::{is_drawn, window_end, window_of};
use pf_scenario::event::Numbered;
use pf_tally::admitted::Admitted;
use pf_tally::held::{Held, held_delays};
use std::alloc::{AllocError, Global};
use std::marker::Model;

/// Whether a slot of the window, or its quantum, is one of the slots from `from` on and below `to`.
fn lies_within(window: Window, leave: Option<u64>, from: u64, to: u64) -> bool
    ensures { result ≡ lies_within from to leave window }
{
    let lies = window.release.max(from) < window_end(window, leave).min(to);
    match window.ran {
        Some(quantum) => lies || (from <= quantum.slot && quantum.slot < to),
        None => lies,
    }
}

/// What a run tells of the windows of an admitted task in some slots.
#[derive(Drop)]
pub struct TaskWindows {
    task: Admitted,
    /// The slots in which it ran, rising.
    ran: Vec<u64>,
    /// The processors on which it did.
    on: Vec<u32>,
    /// What delayed it, one after another.
    delays: Vec<Held>,
    /// The slot of its leave, or how many slots there are where it did not leave.
    end: u64,
    /// The slot of its leave, if it left.
    leave: Option<u64>,
    /// The slots stepped, and those that are shown.
    slots: Slots,
}

impl Model for TaskWindows {
    ghost use Rattle.std.specs.Prelude.{◌≤◌, length};
    ghost use Rattle.pf_tally.specs.Late.{CanMiss};
    ghost use Rattle.pf_windows.specs.Told.{Told};

    ghost Value = { Told };

    ghost view = { λ t. record {
      task = t.task;
      ran = t.ran.items;
      on = t.on.items;
      held = t.delays.items;
      end = t.end;
      leave = t.leave;
      slots = t.slots;
    } };

    ghost invariant = { λ t. CanMiss t.task t.delays.items t.slots.now × (t.end ≤ t.slots.now) × (length t.ran.items ≤ t.slots.now) };
}

impl TaskWindows {
    ghost use Rattle.std.specs.Prelude.{◌≡◌, ◌≤◌, ◌&&◌, ◌^◌, IfOk};
    ghost use Rattle.pf_tally.specs.Held.{CanTally};
    ghost use Rattle.pf_courses.specs.Course.{is_drawn};
    ghost use Rattle.pf_windows.specs.Told.{is_shown, sub_count, told_by, told_window};

    /// Those of a task which ran in the slots `ran`, on these processors, and whose own events these are.
    ///
    /// # Errors
    ///
    /// Where memory is refused.
    pub(crate) fn of(
        alloc: Global,
        task: Admitted,
        ran: &[u64],
        on: &[u32],
        events: &[Numbered],
        slots: Slots,
    ) -> Result<Self, AllocError>
        requires { CanTally task ran.now events.now slots.now }
        ensures { IfOk result (λ t. t ≡ told_by task ran.now on.now events.now slots) }
    {
        let delays = held_delays(alloc, task, ran, events)?;
        Ok(TaskWindows {
            task,
            ran: Vec::from_slice(alloc, ran)?,
            on: Vec::from_slice(alloc, on)?,
            delays,
            end: end_of(events, task, slots.now),
            leave: leave_slot(events, task),
            slots,
        })
    }

    /// The task.
    pub(crate) fn task(&self) -> Admitted
        ensures { result ≡ self.now.task }
    {
        self.task
    }

    /// How many subtasks are looked at: none of a greater number ran, or was released before the task's end.
    pub(crate) fn sub_count(&self) -> u64
        ensures value { result ≡ sub_count self.now }
        ensures bound { result ≤ 2 ^ 22 }
    {
        let released = self.end * self.task.weight.cost() / self.task.weight.period() + 1;
        released.max(self.ran.len() as u64).min(self.slots.now)
    }

    /// The window of a subtask.
    pub(crate) fn window(&self, sub: u64) -> Window
        requires first { 1 ≤ sub }
        requires last { sub ≤ 2 ^ 22 }
        ensures value { result ≡ told_window self.now sub }
    {
        window_of(
            self.task,
            &self.ran,
            &self.on,
            &self.delays,
            self.end,
            sub as u32,
        )
    }

    /// Whether a window of it is shown: it is drawn, as its subtask ran or was released before the task's end, and lies in
    /// the slots that are shown.
    pub(crate) fn shows(&self, window: Window) -> bool
        ensures { result ≡ is_shown self.now window }
    {
        is_drawn(window, self.end)
            && lies_within(window, self.leave, self.slots.from, self.slots.to)
    }
}
