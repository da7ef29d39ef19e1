ghost use Rattle.std.specs.Prelude.{◌≡◌, length, IfOk};
ghost use Rattle.pf_run.specs.RunRows.{AreOfRun};
ghost use Rattle.pf_tally.specs.Journal.{IsJournal};

use crate::admitted::Admitted;
use crate::diary::diaries_by_task;
use crate::standing::standing_events;
use pf_collections::table::lists::Lists;
use pf_place::rows::Rows;
use pf_run::denied::Denied;
use pf_scenario::event::Numbered;
use pf_scenario::scenario::Scenario;
use pf_scenario::settings::Settings;
use std::alloc::{AllocError, Global};

/// The events in force in a run.
#[derive(Drop)]
pub(crate) struct Journal {
    pub settings: Settings,
    /// The number of slots.
    pub now: u64,
    /// The events in force, in run order.
    pub events: Vec<Numbered>,
    /// Of each task number its own events in force, in run order.
    pub diaries: Lists<Numbered>,
}

impl Journal {
    ghost use Rattle.pf_collections.specs.Table.Lists.{noted_of};

    /// The task's own events in force, in run order.
    pub fn diary(&self, task: Admitted) -> &[Numbered]
        ensures { result.now ≡ noted_of self.entry.now.diaries task.task }
    {
        self.diaries.get(task.task)
    }
}

/// The journal of a scenario's run.
pub(crate) fn make_journal(
    alloc: Global,
    scenario: &Scenario,
    rows: &Rows,
    denials: &[Denied],
) -> Result<Journal, AllocError>
    requires { AreOfRun scenario.now (length rows.now) rows.now denials.now }
    ensures { IfOk result (λ journal. IsJournal scenario.now (length rows.now) journal) }
{
    let settings = scenario.settings();
    let now = rows.len() as u64;
    let events = standing_events(alloc, scenario, now, denials)?;
    let diaries = diaries_by_task(alloc, &events)?;
    Ok(Journal {
        settings,
        now,
        events,
        diaries,
    })
}
