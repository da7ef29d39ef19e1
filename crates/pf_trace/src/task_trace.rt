use crate::course::Course;
use crate::event_lines::push_moment;
use crate::lag_line::push_lag;
use crate::moment::Moment;
use crate::title::Title;
use crate::track_names::push_track_names;
use crate::window_lines::{push_quantum, push_window_lines};
use std::alloc::AllocError;
use std::marker::Model;

/// What the events tell of a listed task: its course, if it was admitted, and the events held of it.
#[derive(Drop)]
pub struct TaskTrace {
    title: Title,
    task: u64,
    course: Option<Course>,
    /// The events held below now, in run order.
    moments: Vec<Moment>,
    /// How many slots there are.
    slot_count: u64,
}

impl Model for TaskTrace {
    ghost use Rattle.std.specs.Prelude.{◌≤◌};
    ghost use Rattle.pf_weight.specs.declared.task.TheConstants.{LARGEST_TASK};
    ghost use Rattle.pf_scenario.specs.declared.settings.TheConstants.{WIDE_HORIZON};
    ghost use Rattle.pf_trace.specs.Tasks.{TaskTrace};

    ghost Value = { TaskTrace };

    ghost view = { λ t. record { title = t.title; task = t.task; course = t.course; moments = t.moments.items; slot_count = t.slot_count } };

    ghost invariant = { λ t. (t.task ≤ LARGEST_TASK) × (t.slot_count ≤ WIDE_HORIZON) };
}

impl TaskTrace {
    ghost use Rattle.std.specs.Prelude.{◌≡◌, ◌++◌, ◌+◌, ◌≤◌, ◌<◌, ◌^◌, None, Some, MatchOption, OnOk};
    ghost use Rattle.pf_weight.specs.declared.task.TheConstants.{LARGEST_TASK};
    ghost use Rattle.pf_scenario.specs.declared.settings.TheConstants.{WIDE_HORIZON};
    ghost use Rattle.pf_trace.specs.Tasks.{lag_place, lag_places, life_place, moments_at, name_lines, place_count, place_text, quantum_at, told_lag, window_place, window_places};
    ghost use Rattle.pf_trace.specs.Courses.{lag_count};

    /// What the events tell of this task, after `now` slots.
    pub(crate) fn new(
        title: Title,
        task: u64,
        course: Option<Course>,
        moments: Vec<Moment>,
        now: u64,
    ) -> Self
        requires number { task ≤ LARGEST_TASK }
        requires within { now ≤ WIDE_HORIZON }
        ensures { result ≡ record { title = title; task = task; course = course; moments = moments.items; slot_count = now } }
    {
        TaskTrace {
            title,
            task,
            course,
            moments,
            slot_count: now,
        }
    }

    /// Its course, if it was admitted.
    pub(crate) fn course(&self) -> Option<&Course>
        ensures { MatchOption result (self.now.course ≡ None) (λ course. self.now.course ≡ Some course.now) }
    {
        self.course.as_ref()
    }

    /// What it is called.
    pub(crate) fn title(&self) -> &Title
        ensures { result.now ≡ self.now.title }
    {
        &self.title
    }

    /// Adds the names of its tracks.
    pub(crate) fn push_names(&self, text: &mut Vec<u8>) -> Result<(), AllocError>
        ensures { OnOk result (text.new.items ≡ text.old.items ++ name_lines self.now) }
    {
        push_track_names(text, &self.title, self.task, self.course.is_some())
    }

    /// How many of its subtasks are looked at.
    fn window_places(&self) -> u64
        ensures value { result ≡ window_places self.now }
        ensures bound { result ≤ 2 ^ 22 }
    {
        match &self.course {
            Some(course) => course.sub_count(),
            None => 0,
        }
    }

    /// At how many slots its lag is looked at.
    fn lag_places(&self) -> u64
        ensures value { result ≡ lag_places self.now }
        ensures bound { result ≤ 2 ^ 22 + 1 }
    {
        match &self.course {
            Some(course) => course.lag_count(),
            None => 0,
        }
    }

    /// How many places its text has: one for each subtask, for each slot, and for each lag.
    pub(crate) fn place_count(&self) -> u64
        ensures { result ≡ place_count self.now }
    {
        self.window_places() + self.slot_count + self.lag_places()
    }

    /// Adds the window of a subtask, counted from 0.
    fn push_window_place(&self, text: &mut Vec<u8>, at: u64) -> Result<(), AllocError>
        requires { at < window_places self.now }
        ensures { OnOk result (text.new.items ≡ text.old.items ++ window_place self.now at) }
    {
        let _ = self.window_places();
        match &self.course {
            Some(course) => push_window_lines(
                text,
                &self.title,
                course.task(),
                course.end(),
                course.leave(),
                course.window(at + 1),
            ),
            None => Ok(()),
        }
    }

    /// Adds its events of slot t.
    fn push_moments(&self, text: &mut Vec<u8>, t: u64) -> Result<(), AllocError>
        ensures { OnOk result (text.new.items ≡ text.old.items ++ moments_at self.now t) }
    {
        for moment in &self.moments {
            if moment.numbered.event.slot() == t {
                push_moment(text, &self.title, self.task, *moment)?;
            }
        }
        Ok(())
    }

    /// Adds its quantum in slot t, if it runs in it.
    fn push_quantum_at(&self, text: &mut Vec<u8>, t: u64) -> Result<(), AllocError>
        ensures { OnOk result (text.new.items ≡ text.old.items ++ quantum_at self.now t) }
    {
        let Some(course) = &self.course else {
            return Ok(());
        };
        match course.running(t) {
            Some(window) => push_quantum(text, &self.title, self.task, window),
            None => Ok(()),
        }
    }

    /// Adds its events of slot t, and its quantum.
    fn push_life_place(&self, text: &mut Vec<u8>, t: u64) -> Result<(), AllocError>
        ensures { OnOk result (text.new.items ≡ text.old.items ++ life_place self.now t) }
    {
        self.push_moments(text, t)?;
        self.push_quantum_at(text, t)
    }

    /// Adds the lag of its course so many slots after its join, where it is told.
    fn push_course_lag(
        &self,
        text: &mut Vec<u8>,
        course: &Course,
        at: u64,
    ) -> Result<(), AllocError>
        requires { at < lag_count course.now }
        ensures { OnOk result (text.new.items ≡ text.old.items ++ told_lag self.now course.now (course.now.task.slot + at)) }
    {
        let t = course.lag_slot(at);
        if course.tells_lag(t) {
            push_lag(text, &self.title, self.task, t, course.lag(t))
        } else {
            Ok(())
        }
    }

    /// Adds its lag, so many slots after its join.
    fn push_lag_place(&self, text: &mut Vec<u8>, at: u64) -> Result<(), AllocError>
        requires { at < lag_places self.now }
        ensures { OnOk result (text.new.items ≡ text.old.items ++ lag_place self.now at) }
    {
        match &self.course {
            Some(course) => self.push_course_lag(text, course, at),
            None => Ok(()),
        }
    }

    /// Adds the text of a place.
    pub(crate) fn push_place(&self, text: &mut Vec<u8>, at: u64) -> Result<(), AllocError>
        requires { at < place_count self.now }
        ensures { OnOk result (text.new.items ≡ text.old.items ++ place_text self.now at) }
    {
        let windows = self.window_places();
        if at < windows {
            return self.push_window_place(text, at);
        }
        let t = at - windows;
        if t < self.slot_count {
            return self.push_life_place(text, t);
        }
        self.push_lag_place(text, t - self.slot_count)
    }
}
