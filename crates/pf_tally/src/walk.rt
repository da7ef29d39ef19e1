ghost use Rattle.std.specs.Prelude.{◌≡◌, ◌^◌, ◌+◌, ◌-◌, ◌*◌, ◌<◌, ◌≤◌, ◌==◌, ℕ, List, None, filter_map, length, take, All, IfOk, OnOk};
ghost use Rattle.std.specs.Option.{option_map_or};
ghost use Rattle.pf_weight.specs.declared.task.TheConstants.{LARGEST_TASK};
ghost use Rattle.pf_scenario.specs.Event.{slot_of};
ghost use Rattle.pf_scenario.specs.Edit.{IsEvent};
ghost use Rattle.pf_scenario.specs.declared.limits.TheConstants.{LONGEST_DELAY};
ghost use Rattle.pf_scenario.specs.declared.settings.TheConstants.{WIDE_HORIZON};
ghost use Rattle.pf_run.specs.Inside.{Joined, join_of};
ghost use Rattle.pf_place.specs.Lent.{lent_row};
ghost use Rattle.pf_place.specs.Occupancy.{is_seated};
ghost use Rattle.pf_collections.specs.Table.Grown.{value_of};
ghost use Rattle.pf_collections.specs.Table.Lists.{noted_of};
ghost use Rattle.pf_tally.specs.Log.{IsLog};
ghost use Rattle.pf_tally.specs.Noted.{IsRow};
ghost use Rattle.pf_tally.specs.Walk.{AreApart, IsNew, AreWithin, IsWithin, HaveRun, IsHeldBack, HasEvent, HasWalked, IsAt};

use crate::admitted::{Admitted, admitted_tasks};
use crate::held::Held;
use crate::miss::Miss;
use crate::progress::Progress;
use pf_collections::table::lists::Lists;
use pf_collections::table::table::Table;
use pf_place::row_view::RowView;
use pf_place::rows::Rows;
use pf_scenario::event::{Event, Numbered};
use pf_scenario::settings::Settings;
use pf_weight::task::number_of;
use std::alloc::{AllocError, Global};

/// A walk over the slots of a run and its events in force: how far the tasks have come, and what was found on the way.
/// It takes memory by task, delay and late quantum.
pub(crate) struct Walk {
    /// How far each task has come, by its number.
    pub progress: Table<Option<Progress>>,
    /// Of each task number the delays that it met.
    pub delays: Lists<Held>,
    /// Of each task number the windows whose quantum came too late.
    pub late: Lists<Miss>,
}

// A call of its own, so that who drops a walk sees none of its parts.
impl Drop for Walk {
    fn drop(self) {
        let Walk {
            progress: _,
            delays: _,
            late: _,
        } = self;
    }
}

impl Walk {
    /// A walk at slot 0, in which no task has met anything.
    fn new(alloc: Global, tasks: &[Admitted]) -> Result<Self, AllocError>
        requires { AreApart tasks.now }
        ensures { IfOk result (λ walk. IsNew tasks.now walk) }
    {
        let mut progress = Table::new(alloc, None);
        for task in tasks {
            let number = number_of(task.task);
            progress.reserve(number)?;
            progress.set(
                number,
                Some(Progress {
                    weight: task.weight,
                    received: 0,
                    shift: task.slot,
                }),
            );
        }
        Ok(Walk {
            progress,
            delays: Lists::new(alloc),
            late: Lists::new(alloc),
        })
    }

    /// How many quanta the task has received.
    pub fn received(&self, task: Admitted) -> u64
        requires { task.task ≤ LARGEST_TASK }
        ensures { result ≡ option_map_or (λ p. p.received) (value_of self.entry.now.progress task.task) 0 }
    {
        match self.progress.get(number_of(task.task)) {
            Some(progress) => u64::from(progress.received),
            None => 0,
        }
    }

    /// The delays that the task has met.
    pub fn delays(&self, task: Admitted) -> &[Held]
        ensures { result.now ≡ noted_of self.entry.now.delays task.task }
    {
        self.delays.get(task.task)
    }

    /// The windows of the task whose quantum came too late.
    pub fn late(&self, task: Admitted) -> &[Miss]
        ensures { result.now ≡ noted_of self.entry.now.late task.task }
    {
        self.late.get(task.task)
    }

    /// The task runs in slot t.
    fn note_quantum(&mut self, task: u32, t: u64) -> Result<(), AllocError>
        requires none { self.old.progress.1 ≡ None }
        requires within { IsWithin t (2 ^ 40) (value_of self.old.progress task) }
        requires slot { t < WIDE_HORIZON }
        ensures { OnOk result (HaveRun self.old self.new (λ n. task == n) t) }
    {
        if let Some(place) = self.progress.get_mut(task) {
            if let Some(progress) = place {
                if progress.is_due(t) {
                    self.late.note(u64::from(task), progress.ran_late(task, t))?;
                }
                progress.received += 1;
            }
        }
        Ok(())
    }

    /// The tasks of the row run in slot t.
    fn note_row(&mut self, processors: u32, row: RowView<'_>, t: u64) -> Result<(), AllocError>
        requires row { IsRow processors (lent_row row) }
        requires within { AreWithin t (2 ^ 40) self.old }
        requires slot { t < WIDE_HORIZON }
        ensures { OnOk result (HaveRun self.old self.new (is_seated (lent_row row.entry)) t) }
    {
        for processor in 0..processors {
            if let Some(pick) = row.get(processor) {
                self.note_quantum(pick.task, t)?;
            }
        }
        Ok(())
    }

    /// Walks over the rows of the slots from `from` up to but not including `to`.
    fn walk_rows(
        &mut self,
        processors: u32,
        rows: &Rows,
        from: u64,
        to: u64,
    ) -> Result<(), AllocError>
        requires rows { All (IsRow processors) rows.now }
        requires order { from ≤ to }
        requires inside { to ≤ length rows.now }
        requires short { length rows.now ≤ WIDE_HORIZON }
        requires within { AreWithin from (2 ^ 40) self.old }
        ensures { OnOk result (HasWalked rows.now from to self.old self.new) }
    {
        for t in from..to {
            match rows.get(t) {
                Some(row) => self.note_row(processors, row, t)?,
                None => unreachable!(),
            }
        }
        Ok(())
    }

    /// The task is delayed by so many slots.
    fn hold_back(&mut self, task: u64, by: u64) -> Result<(), AllocError>
        requires number { task ≤ LARGEST_TASK }
        requires short { by ≤ LONGEST_DELAY }
        requires none { self.old.progress.1 ≡ None }
        requires within { IsWithin (2 ^ 40) (2 ^ 40) (value_of self.old.progress task) }
        ensures { OnOk result (IsHeldBack self.old self.new task by) }
    {
        let number = number_of(task);
        if let Some(place) = self.progress.get_mut(number) {
            if let Some(progress) = place {
                let held = Held {
                    sub: u64::from(progress.received) + 1,
                    shift: progress.shift,
                    by,
                };
                self.delays.note(task, held)?;
                progress.shift += by;
            }
        }
        Ok(())
    }

    /// The event takes effect.
    fn note_event(&mut self, settings: Settings, event: &Event) -> Result<(), AllocError>
        requires limits { IsEvent settings event.now }
        requires within { AreWithin (2 ^ 40) (2 ^ 40) self.old }
        ensures { OnOk result (HasEvent self.old self.new event.now) }
    {
        match *event {
            Event::Delay { task, by, .. } => self.hold_back(task, by),
            _ => Ok(()),
        }
    }
}

/// The walk over all rows of a run in which these events were in force, for the tasks that the events bring.
pub(crate) fn walk_run(
    alloc: Global,
    settings: Settings,
    events: &[Numbered],
    rows: &Rows,
) -> Result<Walk, AllocError>
    requires rows { All (IsRow settings.processors) rows.now }
    requires log { IsLog settings (length rows.now) events.now }
    ensures { IfOk result (λ walk. All (IsAt rows.now (length rows.now) events.now walk) (filter_map (join_of settings.base) events.now)) }
{
    let tasks = admitted_tasks(alloc, settings, events)?;
    let mut walk = Walk::new(alloc, &tasks)?;
    let processors = settings.processors();
    let mut t = 0;
    for numbered in events {
        let slot = numbered.event.slot();
        walk.walk_rows(processors, rows, t, slot)?;
        walk.note_event(settings, &numbered.event)?;
        t = slot;
    }
    walk.walk_rows(processors, rows, t, rows.len() as u64)?;
    Ok(walk)
}
