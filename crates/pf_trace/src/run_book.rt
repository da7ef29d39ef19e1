ghost use Rattle.std.specs.Prelude.{◌≡◌, ◌==◌, find};
ghost use Rattle.std.specs.List.{slice_get};
ghost use Rattle.std.specs.List.Sorted.{IsNonDecreasingBy};
ghost use Rattle.pf_trace.specs.Runs.{level_when};

use crate::book::Book;
use crate::slot_lines::{push_row, push_units};
use crate::task_trace::TaskTrace;
use crate::title::Title;
use pf_collections::table::lists::Lists;
use pf_desk::rows::row_at;
use pf_desk::snapshot::Snapshot;
use pf_tally::level::Level;
use pf_weight::task::LARGEST_TASK;
use std::alloc::AllocError;
use std::marker::Model;

/// The level, if it is of slot t.
fn level_when(level: Option<Level>, t: u64) -> Option<Level>
    ensures { result ≡ level_when t level }
{
    let level = level?;
    if level.slot == t { Some(level) } else { None }
}

/// The level at a place, if there is one.
fn level_of(levels: &[Level], at: usize) -> Option<Level>
    ensures { result ≡ slice_get levels.now at }
{
    levels.get(at).copied()
}

/// The level of slot t, if load or room changes in it, among levels that rise by slot.
fn level_at(levels: &[Level], t: u64) -> Option<Level>
    requires { IsNonDecreasingBy (λ l. l.slot) levels.now }
    ensures { result ≡ find (λ l. l.slot == t) levels.now }
{
    let at = levels.partition_point(|level| level.slot < t);
    level_when(level_of(levels, at), t)
}

/// What the events tell of a run after the names of its processors: the names of the tasks; slot by slot the load and the
/// quanta; and task by task its windows, its quanta and events, and its lags.
#[derive(Drop)]
pub struct RunBook<'a> {
    snapshot: &'a Snapshot,
    /// For the lines of no task.
    title: Title,
    /// By number, the listed tasks.
    tasks: Lists<TaskTrace>,
    /// By slot, the load and the room where one of them changes.
    levels: Vec<Level>,
}

impl<'a> Model for RunBook<'a> {
    ghost use Rattle.std.specs.Prelude.{◌≡◌, length};
    ghost use Rattle.std.specs.List.Sorted.{IsNonDecreasingBy};
    ghost use Rattle.pf_trace.specs.Runs.{RunTrace};

    ghost Value = { RunTrace };

    ghost view = { λ b. record {
      rows = b.snapshot.now.rows;
      processors = b.snapshot.now.state.plan.settings.processors;
      title = b.title;
      tasks = b.tasks;
      levels = b.levels.items;
    } };

    ghost invariant = { λ b. (length b.snapshot.now.rows ≡ b.snapshot.now.state.now) × IsNonDecreasingBy (λ l. l.slot) b.levels.items };
}

impl<'a> RunBook<'a> {
    ghost use Rattle.std.specs.Prelude.{◌≡◌, ◌++◌, ◌<◌, length, OnOk, option_map};
    ghost use Rattle.std.specs.List.Sorted.{IsNonDecreasingBy};
    ghost use Rattle.pf_trace.specs.Runs.{name_place, run_by, slot_place, task_places, task_place, trace_at};

    /// The book of these tasks, by number, and these levels, by slot.
    pub(crate) fn new(
        snapshot: &'a Snapshot,
        title: Title,
        tasks: Lists<TaskTrace>,
        levels: Vec<Level>,
    ) -> Self
        requires { IsNonDecreasingBy (λ l. l.slot) levels.items }
        ensures { result ≡ record {
          rows = snapshot.now.rows;
          processors = snapshot.now.state.plan.settings.processors;
          title = title;
          tasks = tasks;
          levels = levels.items;
        } }
    {
        // That there is a row for each slot is known from this call alone.
        let _ = snapshot.now();
        RunBook {
            snapshot,
            title,
            tasks,
            levels,
        }
    }

    /// What is told of a task, where it is listed.
    fn trace(&self, task: u64) -> Option<&TaskTrace>
        ensures { option_map (λ trace. trace.now) result ≡ trace_at self.now.tasks task }
    {
        self.tasks.get(task).first()
    }

    /// How many places the text of a task has.
    fn task_places(&self, task: u64) -> u64
        ensures { result ≡ task_places (run_by self.now) task }
    {
        match self.trace(task) {
            Some(trace) => trace.place_count(),
            None => 0,
        }
    }

    /// Adds the names of a task's tracks.
    fn push_names(&self, text: &mut Vec<u8>, task: u64) -> Result<(), AllocError>
        ensures { OnOk result (text.new.items ≡ text.old.items ++ name_place (run_by self.now) task) }
    {
        match self.trace(task) {
            Some(trace) => trace.push_names(text),
            None => Ok(()),
        }
    }

    /// Adds the load of slot t, if it changes in it, and its quanta.
    fn push_slot(&self, text: &mut Vec<u8>, t: u64) -> Result<(), AllocError>
        requires { t < length self.now.rows }
        ensures { OnOk result (text.new.items ≡ text.old.items ++ slot_place (run_by self.now) t) }
    {
        if let Some(level) = level_at(&self.levels, t) {
            push_units(text, &self.title, level)?;
        }
        let processors = self.snapshot.settings().processors();
        let row = row_at(self.snapshot, t);
        push_row(text, &self.tasks, row, processors, t)
    }

    /// Adds a place of a task's text.
    fn push_task(&self, text: &mut Vec<u8>, task: u64, at: u64) -> Result<(), AllocError>
        requires { at < task_places (run_by self.now) task }
        ensures { OnOk result (text.new.items ≡ text.old.items ++ task_place (run_by self.now) task at) }
    {
        match self.trace(task) {
            Some(trace) => trace.push_place(text, at),
            None => Ok(()),
        }
    }
}

impl Book for RunBook<'_> {
    ghost use Rattle.pf_trace.specs.Runs.{chapter_count, chapter_places, chapter_place, run_by};

    ghost chapters = { λ _. chapter_count };

    ghost places = { λ b. chapter_places (run_by b) };

    ghost place = { λ b. chapter_place (run_by b) };

    fn chapters(&self) -> u64 {
        2 + LARGEST_TASK
    }

    fn places(&self, chapter: u64) -> u64 {
        match chapter {
            0 => LARGEST_TASK,
            1 => self.snapshot.now(),
            _ => self.task_places(chapter - 1),
        }
    }

    fn push_place(&self, text: &mut Vec<u8>, chapter: u64, at: u64) -> Result<(), AllocError> {
        match chapter {
            0 => self.push_names(text, at + 1),
            1 => self.push_slot(text, at),
            _ => self.push_task(text, chapter - 1, at),
        }
    }
}
