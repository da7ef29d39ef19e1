ghost use Rattle.std.specs.Prelude.{◌≡◌, length, IfOk};
ghost use Rattle.pf_run.specs.RunRows.{AreOfRun};
ghost use Rattle.pf_tally.specs.Ledger.{IsLedger};

use crate::admitted::Admitted;
use crate::journal::{Journal, make_journal};
use crate::quanta::quanta_by_task;
use pf_collections::table::lists::Lists;
use pf_place::rows::Rows;
use pf_run::denied::Denied;
use pf_scenario::event::Numbered;
use pf_scenario::scenario::Scenario;
use pf_scenario::settings::Settings;
use std::alloc::{AllocError, Global};

/// What a tally rests on.
pub struct Ledger {
    pub settings: Settings,
    /// The number of slots.
    pub now: u64,
    /// The events in force, in run order.
    pub events: Vec<Numbered>,
    /// Of each task number its own events in force, in run order.
    pub diaries: Lists<Numbered>,
    /// Of each task number the slots in which it runs, rising.
    pub quanta: Lists<u64>,
}

// A call of its own, so that who drops a ledger sees none of its parts.
impl Drop for Ledger {
    fn drop(self) {
        let Ledger {
            settings: _,
            now: _,
            events: _,
            diaries: _,
            quanta: _,
        } = self;
    }
}

impl Ledger {
    ghost use Rattle.pf_collections.specs.Table.Lists.{noted_of};

    /// The task's own events in force, in run order.
    pub fn diary(&self, task: Admitted) -> &[Numbered]
        ensures { result.now ≡ noted_of self.entry.now.diaries task.task }
    {
        self.diaries.get(task.task)
    }

    /// The slots in which the task runs, rising.
    pub fn quanta(&self, task: Admitted) -> &[u64]
        ensures { result.now ≡ noted_of self.entry.now.quanta task.task }
    {
        self.quanta.get(task.task)
    }
}

/// The ledger of a scenario's run.
pub fn make_ledger(
    alloc: Global,
    scenario: &Scenario,
    rows: &Rows,
    denials: &[Denied],
) -> Result<Ledger, AllocError>
    requires { AreOfRun scenario.now (length rows.now) rows.now denials.now }
    ensures { IfOk result (λ ledger. IsLedger scenario.now (length rows.now) ledger) }
{
    let Journal {
        settings,
        now,
        events,
        diaries,
    } = make_journal(alloc, scenario, rows, denials)?;
    let quanta = quanta_by_task(alloc, settings.processors(), rows)?;
    Ok(Ledger {
        settings,
        now,
        events,
        diaries,
        quanta,
    })
}
