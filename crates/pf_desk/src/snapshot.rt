ghost use Rattle.std.specs.Prelude.{◌≡◌, length, IfOk};
ghost use Rattle.std.specs.List.{slice_get};
ghost use Rattle.pf_place.specs.Lent.{places_lent};
ghost use Rattle.pf_run.specs.Computed.{run_of};
ghost use Rattle.pf_run.specs.RunRows.{AreOfRun};
ghost use Rattle.pf_tally.specs.Lags.{lags_of};
ghost use Rattle.pf_tally.specs.Misses.{misses_of};
ghost use Rattle.pf_tally.specs.Figures.{figures_of};
ghost use Rattle.pf_tally.specs.Load.{overload_of};
ghost use Rattle.pf_tally.specs.Fit.{IsFirstAbove};

use pf_collections::list::shared_vec::SharedVec;
use pf_place::row_view::RowView;
use pf_place::rows::Rows;
use pf_run::denied::Denied;
use pf_scenario::events::Events;
use pf_scenario::scenario::Scenario;
use pf_scenario::settings::Settings;
use pf_tally::figures::Figures;
use pf_tally::fit::Fit;
use pf_tally::lag::Lag;
use pf_tally::miss::Miss;
use pf_tally::tally::{Tally, make_tally};
use pf_tally::{fits, lags, misses, task_figures};
use std::alloc::{AllocError, Global};
use std::marker::Model;

/// What a desk showed at one point of its history.
#[derive(Debug)]
pub struct Snapshot {
    alloc: Global,
    version: u64,
    scenario: Scenario,
    rows: Rows,
    denials: SharedVec<Denied>,
}

// A call of its own, so that who drops a snapshot sees none of its parts.
impl Drop for Snapshot {
    fn drop(self) {
        let Snapshot {
            alloc: _,
            version: _,
            scenario: _,
            rows: _,
            denials: _,
        } = self;
    }
}

impl Model for Snapshot {
    ghost use Rattle.std.specs.Prelude.{length};
    ghost use Rattle.pf_run.specs.RunRows.{AreOfRun};
    ghost use Rattle.pf_desk.specs.Desk.{Seen};

    ghost Value = { Seen };

    ghost view = { λ s. record { version = s.version; state = record { plan = s.scenario; now = length s.rows }; rows = s.rows; denials = s.denials.items } };

    ghost invariant = { λ s. AreOfRun s.scenario (length s.rows) s.rows s.denials.items };
}

impl Snapshot {
    /// The snapshot of a history of `version` entries that ends in this scenario with these rows and denials, those of
    /// its run. It shares the denials, the events and the full blocks of rows, so it costs the same however many there are.
    ///
    /// # Errors
    ///
    /// Where memory is refused.
    pub(crate) fn of(
        alloc: Global,
        version: u64,
        scenario: &Scenario,
        rows: &Rows,
        denials: &SharedVec<Denied>,
    ) -> Result<Self, AllocError>
        requires { AreOfRun scenario.now (length rows.now) rows.now denials.now.items }
        ensures { IfOk result
            (λ s. s ≡ record { version = version; state = record { plan = scenario.now; now = length rows.now }; rows = rows.now; denials = denials.now.items }) }
    {
        let denials = denials.copy()?;
        let rows = rows.copy()?;
        let scenario = scenario.copy()?;
        Ok(Snapshot {
            alloc,
            version,
            scenario,
            rows,
            denials,
        })
    }

    /// How many entries the history had.
    pub fn version(&self) -> u64
        ensures { result ≡ self.now.version }
    {
        self.version
    }

    /// How many slots were stepped.
    pub fn now(&self) -> u64
        ensures value { result ≡ self.now.state.now }
        ensures of_run { AreOfRun self.now.state.plan self.now.state.now self.now.rows self.now.denials }
    {
        self.rows.len() as u64
    }

    /// What the scenario was set in.
    pub fn settings(&self) -> Settings
        ensures { result ≡ self.now.state.plan.settings }
    {
        self.scenario.settings()
    }

    /// What was planned.
    pub fn scenario(&self) -> &Scenario
        ensures { result.now ≡ self.now.state.plan }
    {
        &self.scenario
    }

    /// The events held, in rising order of their numbers.
    pub fn events(&self) -> Events<'_>
        ensures { result ≡ self.now.state.plan.events }
    {
        self.scenario.events()
    }

    /// Who runs where in slot t; none where t is not below now.
    pub fn row(&self, t: u64) -> Option<RowView<'_>>
        ensures { places_lent result ≡ slice_get self.now.rows t }
    {
        self.rows.get(t)
    }

    /// Who runs where, in each slot below now.
    pub fn rows(&self) -> &Rows
        ensures { result.now ≡ self.now.rows }
    {
        &self.rows
    }

    /// The denials of the slots below now, in run order.
    pub fn denials(&self) -> &[Denied]
        ensures { result.now ≡ self.now.denials }
    {
        self.denials.as_slice()
    }

    /// How far each task inside is from its fair share, by task number.
    ///
    /// # Errors
    ///
    /// Where memory is refused.
    pub fn lags(&self) -> Result<Vec<Lag>, AllocError>
        ensures { IfOk result (λ v. v.items ≡ lags_of self.now.state.plan (run_of self.now.state.plan self.now.state.now)) }
    {
        lags::lags(
            self.alloc,
            &self.scenario,
            &self.rows,
            self.denials.as_slice(),
        )
    }

    /// The missed windows, by deadline, then by task number.
    ///
    /// # Errors
    ///
    /// Where memory is refused.
    pub fn misses(&self) -> Result<Vec<Miss>, AllocError>
        ensures { IfOk result (λ v. v.items ≡ misses_of self.now.state.plan (run_of self.now.state.plan self.now.state.now)) }
    {
        misses::misses(
            self.alloc,
            &self.scenario,
            &self.rows,
            self.denials.as_slice(),
        )
    }

    /// What `lags` and `misses` give, by one walk over the run.
    ///
    /// # Errors
    ///
    /// Where memory is refused.
    pub fn tally(&self) -> Result<Tally, AllocError>
        ensures lags { IfOk result (λ tally. tally.lags.items ≡ lags_of self.now.state.plan (run_of self.now.state.plan self.now.state.now)) }
        ensures misses { IfOk result (λ tally. tally.misses.items ≡ misses_of self.now.state.plan (run_of self.now.state.plan self.now.state.now)) }
    {
        make_tally(
            self.alloc,
            &self.scenario,
            &self.rows,
            self.denials.as_slice(),
        )
    }

    /// What every simulator tells of each task admitted in a slot below now, by task number.
    ///
    /// # Errors
    ///
    /// Where memory is refused.
    pub fn figures(&self) -> Result<Vec<Figures>, AllocError>
        ensures { IfOk result (λ v. v.items ≡ figures_of self.now.state.plan (run_of self.now.state.plan self.now.state.now) self.now.rows) }
    {
        task_figures::task_figures(
            self.alloc,
            &self.scenario,
            &self.rows,
            self.denials.as_slice(),
        )
    }

    /// Whether the loads of the slots below now were within the processors in use, and if not, from which slot on and by how
    /// much. By the laws of pf_laws no window was missed where they were, and the lag of a task that never runs early stayed
    /// within a quantum; and no task was tardy by more slots than the overload has quanta.
    ///
    /// # Errors
    ///
    /// Where memory is refused.
    pub fn fits(&self) -> Result<Fit, AllocError>
        ensures of_run { AreOfRun self.now.state.plan self.now.state.now self.now.rows self.now.denials }
        ensures first { IfOk result (λ fit. IsFirstAbove self.now.state.plan (run_of self.now.state.plan self.now.state.now) self.now.state.now fit.first) }
        ensures overload { IfOk result (λ fit. fit.overload ≡ overload_of self.now.state.plan (run_of self.now.state.plan self.now.state.now) self.now.state.now) }
    {
        fits::fits(
            self.alloc,
            &self.scenario,
            &self.rows,
            self.denials.as_slice(),
        )
    }
}
