use pf_courses::end::{end_of, leave_slot};
use pf_courses::window::Window;
use pf_courses::windows::window_of;
use pf_scenario::event::Numbered;
use pf_tally::admitted::Admitted;
use pf_tally::clock::lag_after;
use pf_tally::held::{Held, held_delays, slots_below};
use pf_tally::standing::is_among;
use std::alloc::{AllocError, Global};
use std::marker::Model;

/// What a run tells of an admitted task.
#[derive(Drop)]
pub struct Course {
    task: Admitted,
    /// The slots in which it ran, rising.
    ran: Vec<u64>,
    /// The processors on which it did.
    on: Vec<u32>,
    /// What delayed it, one after another.
    delays: Vec<Held>,
    /// The slot of its leave, or how many slots there are where it did not leave.
    end: u64,
    /// The slot of its leave, if it left.
    leave: Option<u64>,
    /// How many slots there are.
    slot_count: u64,
}

impl Model for Course {
    ghost use Rattle.std.specs.Prelude.{◌≤◌, length};
    ghost use Rattle.std.specs.List.Sorted.{IsNonDecreasing};
    ghost use Rattle.pf_tally.specs.Late.{CanMiss};
    ghost use Rattle.pf_trace.specs.Courses.{Course};

    ghost Value = { Course };

    ghost view = { λ c. record {
      task = c.task;
      ran = c.ran.items;
      on = c.on.items;
      held = c.delays.items;
      end = c.end;
      leave = c.leave;
      slot_count = c.slot_count;
    } };

    ghost invariant = { λ c. CanMiss c.task c.delays.items c.slot_count × (c.end ≤ c.slot_count) × (length c.ran.items ≤ c.slot_count) × IsNonDecreasing c.ran.items };
}

impl Course {
    ghost use Rattle.std.specs.Prelude.{◌≡◌, ◌<◌, ◌≤◌, ◌+◌, ◌^◌, IfOk};
    ghost use Rattle.pf_weight.specs.declared.task.TheConstants.{LARGEST_TASK};
    ghost use Rattle.pf_tally.specs.Held.{CanTally};
    ghost use Rattle.pf_trace.specs.Courses.{course_by, course_lag, course_window, is_lag_told, lag_count, sub_count, window_running};

    /// That of a task which ran in the slots `ran`, on these processors, and whose own events these are, after `now` slots.
    ///
    /// # Errors
    ///
    /// Where memory is refused.
    pub(crate) fn of(
        alloc: Global,
        task: Admitted,
        ran: &[u64],
        on: &[u32],
        events: &[Numbered],
        now: u64,
    ) -> Result<Self, AllocError>
        requires { CanTally task ran.now events.now now }
        ensures { IfOk result (λ c. c ≡ course_by task ran.now on.now events.now now) }
    {
        let delays = held_delays(alloc, task, ran, events)?;
        Ok(Course {
            task,
            ran: Vec::from_slice(alloc, ran)?,
            on: Vec::from_slice(alloc, on)?,
            delays,
            end: end_of(events, task, now),
            leave: leave_slot(events, task),
            slot_count: now,
        })
    }

    /// The task, as its join brought it.
    pub(crate) fn task(&self) -> Admitted
        ensures value { result ≡ self.now.task }
        ensures number { result.task ≤ LARGEST_TASK }
    {
        self.task
    }

    /// The slot of its leave, or how many slots there are where it did not leave.
    pub(crate) fn end(&self) -> u64
        ensures { result ≡ self.now.end }
    {
        self.end
    }

    /// The slot of its leave, if it left.
    pub(crate) fn leave(&self) -> Option<u64>
        ensures { result ≡ self.now.leave }
    {
        self.leave
    }

    /// How many subtasks are looked at: none of a greater number ran, or was released before the task's end.
    pub(crate) fn sub_count(&self) -> u64
        ensures value { result ≡ sub_count self.now }
        ensures bound { result ≤ 2 ^ 22 }
    {
        let released = self.end * self.task.weight.cost() / self.task.weight.period() + 1;
        released.max(self.ran.len() as u64).min(self.slot_count)
    }

    /// The window of a subtask.
    pub(crate) fn window(&self, sub: u64) -> Window
        requires first { 1 ≤ sub }
        requires last { sub ≤ 2 ^ 22 + 1 }
        ensures { result ≡ course_window self.now sub }
    {
        window_of(
            self.task,
            &self.ran,
            &self.on,
            &self.delays,
            self.end,
            sub as u32,
        )
    }

    /// The window of the subtask that runs in slot t, if one does.
    pub(crate) fn running(&self, t: u64) -> Option<Window>
        ensures { result ≡ window_running self.now t }
    {
        if !is_among(&self.ran, t) {
            return None;
        }
        Some(self.window(slots_below(&self.ran, t) + 1))
    }

    /// At how many slots its lag is looked at: from its join to its end.
    pub(crate) fn lag_count(&self) -> u64
        ensures value { result ≡ lag_count self.now }
        ensures bound { result ≤ 2 ^ 22 + 1 }
    {
        (self.end + 1).saturating_sub(self.task.slot)
    }

    /// The slot so many slots after its join.
    pub(crate) fn lag_slot(&self, at: u64) -> u64
        requires { at < lag_count self.now }
        ensures value { result ≡ self.now.task.slot + at }
        ensures within { result ≤ self.now.end }
    {
        self.task.slot + at
    }

    /// Its lag after the first t slots, times its period.
    #[tactic(auto, unfolding(crate::specs::Courses::course_lag))]
    pub(crate) fn lag(&self, t: u64) -> i64
        requires joined { self.now.task.slot ≤ t }
        requires within { t ≤ self.now.end }
        ensures { result ≡ course_lag self.now t }
    {
        let received = slots_below(&self.ran, t);
        lag_after(self.task, received, &self.delays, t)
    }

    /// Whether the lag after the first t slots is told: it is the first one, or another than the one before.
    #[tactic(auto, unfolding(crate::specs::Courses::is_lag_told))]
    pub(crate) fn tells_lag(&self, t: u64) -> bool
        requires joined { self.now.task.slot ≤ t }
        requires within { t ≤ self.now.end }
        ensures { result ≡ is_lag_told self.now t }
    {
        t == self.task.slot || self.lag(t) != self.lag(t - 1)
    }
}
