use crate::end::end_of;
use crate::lags::lags_of;
use crate::pause::{Pause, is_stopped, stops_of};
use crate::window::Window;
use crate::windows::windows_of;
use pf_scenario::event::Numbered;
use pf_tally::admitted::Admitted;
use pf_tally::held::held_delays;
use pf_tally::late::leave_of;
use pf_weight::weight::Weight;
use std::alloc::{AllocError, Global};
use std::marker::Model;

/// What a run tells of a task, from its join to its end, which is its leave where it left.
#[derive(Drop)]
pub struct Course {
    task: u64,
    weight: Weight,
    joined: u64,
    end: u64,
    left: bool,
    windows: Vec<Window>,
    stops: Vec<Pause>,
    lags: Vec<i64>,
}

impl Model for Course {
    ghost use Rattle.pf_courses.specs.Course.{IsTrack, Track};

    ghost Value = { Track };

    ghost view = { λ c. record {
      task = c.task;
      weight = c.weight;
      joined = c.joined;
      end = c.end;
      left = c.left;
      windows = c.windows.items;
      stops = c.stops.items;
      lags = c.lags.items;
    } };

    ghost invariant = { λ c. IsTrack (record {
      task = c.task;
      weight = c.weight;
      joined = c.joined;
      end = c.end;
      left = c.left;
      windows = c.windows.items;
      stops = c.stops.items;
      lags = c.lags.items;
    }) };
}

impl Course {
    ghost use Rattle.std.specs.Prelude.{◌≡◌, ◌+◌, ◌-◌, nat_le, length, IfOk};
    ghost use Rattle.pf_scenario.specs.Scenario.{Plan};
    ghost use Rattle.pf_scenario.specs.Edit.{IsScenario};
    ghost use Rattle.pf_run.specs.Computed.{run_of};
    ghost use Rattle.pf_tally.specs.Held.{CanTally};
    ghost use Rattle.pf_tally.specs.Quanta.{slots_of};
    ghost use Rattle.pf_courses.specs.Course.{track_of};
    ghost use Rattle.pf_tally.specs.Clock.{is_stopped};
    ghost use Rattle.pf_courses.specs.Activity.{is_behind, is_inside, is_waiting, running_in};
    ghost use Rattle.pf_courses.specs.Cut.{IsCut};
    ghost use Rattle.pf_courses.specs.Windows.{ran_below};

    /// The course, after `now` slots, of a task that ran on these processors, in the slots `ran`, and whose own events
    /// these are.
    ///
    /// # Errors
    ///
    /// Where memory is refused.
    pub(crate) fn of(
        alloc: Global,
        task: Admitted,
        on: &[u32],
        ran: &[u64],
        events: &[Numbered],
        now: u64,
    ) -> Result<Self, AllocError>
        requires { CanTally task ran.now events.now now }
        ensures { (s : Plan) → IsScenario s → length (run_of s now) ≡ now → ran.now ≡ slots_of (run_of s now) task.task
            → IfOk result (λ course. course ≡ track_of (run_of s now) on.now events.now task) }
    {
        let delays = held_delays(alloc, task, ran, events)?;
        let end = end_of(events, task, now);
        let windows = windows_of(alloc, task, ran, on, &delays, end, now as u32)?;
        let stops = stops_of(alloc, task.weight, &delays)?;
        let lags = lags_of(alloc, task, ran, &stops, end)?;
        Ok(Course {
            task: task.task,
            weight: task.weight,
            joined: task.slot,
            end,
            left: leave_of(events, task.task).is_some(),
            windows,
            stops,
            lags,
        })
    }

    /// Its number.
    pub fn task(&self) -> u64
        ensures { result ≡ self.now.task }
    {
        self.task
    }

    /// Its weight.
    pub fn weight(&self) -> Weight
        ensures { result ≡ self.now.weight }
    {
        self.weight
    }

    /// The slot of its join.
    pub fn joined(&self) -> u64
        ensures { result ≡ self.now.joined }
    {
        self.joined
    }

    /// The slot of its leave, or how many slots there are where it did not leave.
    pub fn end(&self) -> u64
        ensures { result ≡ self.now.end }
    {
        self.end
    }

    /// Whether it left.
    pub fn left(&self) -> bool
        ensures { result ≡ self.now.left }
    {
        self.left
    }

    /// The windows of those of its subtasks that ran or were released before its end, from the first one on.
    pub fn windows(&self) -> &[Window]
        ensures { result.now ≡ self.now.windows }
    {
        &self.windows
    }

    /// Where delays stop its clock, one after another.
    pub fn stops(&self) -> &[Pause]
        ensures { result.now ≡ self.now.stops }
    {
        &self.stops
    }

    /// Its lags, times its period, after the first t slots, for each t from its join to its end.
    pub fn lags(&self) -> &[i64]
        ensures value { result.now ≡ self.now.lags }
        ensures many { length result.now ≡ self.now.end + 1 - self.now.joined }
    {
        &self.lags
    }

    /// How many of its subtasks ran in slots below t.
    pub fn done(&self, t: u64) -> usize
        ensures { IsCut (ran_below t) result self.now.windows }
    {
        self.windows.partition_point(|window| window.ran_below(t))
    }

    /// How many of its subtasks are released by slot t.
    pub fn released(&self, t: u64) -> usize
        ensures { IsCut (λ w. nat_le w.release t) result self.now.windows }
    {
        self.windows.partition_point(|window| window.release <= t)
    }

    /// How many of its subtasks are due by slot t.
    pub fn due(&self, t: u64) -> usize
        ensures { IsCut (λ w. nat_le w.deadline t) result self.now.windows }
    {
        self.windows.partition_point(|window| window.deadline <= t)
    }

    /// Whether a delay stops its clock in slot t.
    pub fn is_stopped(&self, t: u64) -> bool
        ensures { result ≡ is_stopped self.now.stops t }
    {
        is_stopped(&self.stops, t)
    }

    /// Whether it is inside in slot t.
    pub fn is_inside(&self, t: u64) -> bool
        ensures { result ≡ is_inside self.now t }
    {
        self.joined <= t && t < self.end
    }

    /// Its subtask that runs in slot t, if one does.
    pub fn running(&self, t: u64) -> Option<Window>
        ensures { result ≡ running_in self.now t }
    {
        match self.windows.get(self.done(t)) {
            Some(next) => {
                if next.processor_in(t).is_some() {
                    Some(*next)
                } else {
                    None
                }
            }
            None => None,
        }
    }

    /// Whether a subtask of it waits after its deadline in slot t.
    pub fn is_behind(&self, t: u64) -> bool
        ensures { result ≡ is_behind self.now t }
    {
        self.done(t) < self.due(t)
    }

    /// Whether a subtask of it waits in its window in slot t.
    pub fn is_waiting(&self, t: u64) -> bool
        ensures { result ≡ is_waiting self.now t }
    {
        t < self.end && self.done(t + 1).max(self.due(t)) < self.released(t)
    }
}
