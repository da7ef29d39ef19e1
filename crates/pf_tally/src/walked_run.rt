ghost use Rattle.std.specs.Prelude.{◌≡◌, ◌++◌, Option, List, length, filter_map, Contains, IfOk, OnOk};
ghost use Rattle.pf_run.specs.Inside.{join_of};
ghost use Rattle.pf_order.specs.declared.pick.Pick.{Pick};
ghost use Rattle.pf_scenario.specs.Scenario.{Plan};
ghost use Rattle.pf_run.specs.declared.denied.Denied.{Denied};
ghost use Rattle.pf_run.specs.Computed.{run_of};
ghost use Rattle.pf_run.specs.RunRows.{AreOfRun};
ghost use Rattle.pf_tally.specs.Lags.{lags_of};
ghost use Rattle.pf_tally.specs.Misses.{misses_of, misses_of_task};
ghost use Rattle.pf_tally.specs.WalkedRun.{IsWalkOf, IsWalked};

use crate::admitted::{Admitted, admitted_tasks};
use crate::clock::clock_at;
use crate::inside::tasks_inside;
use crate::journal::{Journal, make_journal};
use crate::lag::Lag;
use crate::lags::lag_at;
use crate::late::last_due;
use crate::miss::Miss;
use crate::misses::{note_late, note_unrun};
use crate::walk::{Walk, walk_run};
use pf_place::rows::Rows;
use pf_run::denied::Denied;
use pf_scenario::event::Numbered;
use pf_scenario::scenario::Scenario;
use pf_scenario::settings::Settings;
use std::alloc::{AllocError, Global};

/// A run that was walked over: the events in force, and what the walk found.
#[derive(Drop)]
pub(crate) struct WalkedRun {
    pub journal: Journal,
    pub walk: Walk,
}

/// Walks over a scenario's run.
pub(crate) fn walk_over(
    alloc: Global,
    scenario: &Scenario,
    rows: &Rows,
    denials: &[Denied],
) -> Result<WalkedRun, AllocError>
    requires { AreOfRun scenario.now (length rows.now) rows.now denials.now }
    ensures { IfOk result (λ run. IsWalkOf scenario.now rows.now denials.now run) }
{
    let journal = make_journal(alloc, scenario, rows, denials)?;
    let walk = walk_run(alloc, journal.settings, &journal.events, rows)?;
    Ok(WalkedRun { journal, walk })
}

impl WalkedRun {
    /// What the scenario is set in.
    pub fn settings(&self) -> Settings
        ensures { result ≡ self.now.journal.settings }
    {
        self.journal.settings
    }

    /// The events in force, in run order.
    pub fn events(&self) -> &[Numbered]
        ensures { result.now ≡ self.now.journal.events.items }
    {
        &self.journal.events
    }

    /// The lags of the tasks inside, by task number.
    pub fn lags(&self, alloc: Global) -> Result<Vec<Lag>, AllocError>
        requires { IsWalked self.now }
        ensures { (s : Plan) (rows : List (List (Option Pick))) (denials : List Denied) → IsWalkOf s rows denials self.now
            → IfOk result (λ v. v.items ≡ lags_of s (run_of s (length rows))) }
    {
        let journal = &self.journal;
        let tasks = tasks_inside(alloc, journal.settings, &journal.events, &journal.diaries)?;
        let mut lags = Vec::with_capacity(alloc, tasks.len())?;
        for task in &tasks {
            let clock = clock_at(*task, self.walk.delays(*task), journal.now);
            lags.push(lag_at(*task, clock, self.walk.received(*task)))?;
        }
        Ok(lags)
    }

    /// The missed windows of the tasks that joined, by deadline and then by task number.
    pub fn misses(&self, alloc: Global) -> Result<Vec<Miss>, AllocError>
        requires { IsWalked self.now }
        ensures { (s : Plan) (rows : List (List (Option Pick))) (denials : List Denied) → IsWalkOf s rows denials self.now
            → IfOk result (λ v. v.items ≡ misses_of s (run_of s (length rows))) }
    {
        let tasks = admitted_tasks(alloc, self.journal.settings, &self.journal.events)?;
        let mut misses = Vec::new(alloc);
        for task in &tasks {
            self.note_misses(&mut misses, *task)?;
        }
        misses.sort_unstable_by_key(|miss| (miss.deadline, miss.task));
        Ok(misses)
    }

    /// Appends the missed windows of the task, which has joined.
    pub fn note_misses(&self, misses: &mut Vec<Miss>, task: Admitted) -> Result<(), AllocError>
        requires walked { IsWalked self.now }
        requires joined { Contains (filter_map (join_of self.now.journal.settings.base) self.now.journal.events.items) task }
        ensures { (s : Plan) (rows : List (List (Option Pick))) (denials : List Denied) → IsWalkOf s rows denials self.now
            → OnOk result (misses.new.items ≡ misses.old.items ++ misses_of_task (run_of s (length rows)) self.now.journal.events.items task) }
    {
        let now = self.journal.now;
        let last = last_due(self.journal.diary(task), task, now);
        note_late(misses, self.walk.late(task), last)?;
        let received = self.walk.received(task) as u32;
        note_unrun(
            misses,
            task,
            self.walk.delays(task),
            last,
            received,
            now as u32,
        )?;
        Ok(())
    }
}
