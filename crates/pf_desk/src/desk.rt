ghost use Rattle.std.specs.Prelude.{◌≡◌, ◌⊎◌, ◌<◌, ◌≤◌, ◌+◌, ◌↔◌, [], length, IfOk, OnOk, OnErr, Err};
ghost use Rattle.pf_order.specs.Counts.{one_more};
ghost use Rattle.pf_order.specs.Counted.{CountsAtMost};
ghost use Rattle.pf_run.specs.Computed.{run_of};
ghost use Rattle.pf_tally.specs.Lags.{lags_of};
ghost use Rattle.pf_tally.specs.Misses.{misses_of};
ghost use Rattle.pf_scenario.specs.Limits.{largest_distance};
ghost use Rattle.pf_timeline.specs.Comparisons.{most_comparisons_at};
ghost use Rattle.pf_desk.specs.declared.fault.OpenFault.TheVariants.{BadSettings};
ghost use Rattle.pf_desk.specs.declared.command.Command.TheVariants.{Step};
ghost use Rattle.pf_desk.specs.Machine.{opening_state, reply_to, IsStepped};
ghost use Rattle.pf_desk.specs.Desk.{IsDesk, IsAsBefore, AnswersCaller, LeavesRest, IsUncounted, most_slots, StandsForHistory, seen_of, IsReadyFor, MakesReady};

use crate::command::Command;
use crate::entry::Entry;
use crate::fault::OpenFault;
use crate::history::History;
use crate::prepared::Prepared;
use crate::reply::Reply;
use crate::scenario_run::ScenarioRun;
use crate::snapshot::Snapshot;
use pf_order::meter::Meter;
use pf_place::rows::Rows;
use pf_run::denied::Denied;
use pf_scenario::scenario::Scenario;
use pf_scenario::settings::Settings;
use pf_tally::lag::Lag;
use pf_tally::miss::Miss;
use pf_tally::tally::{Tally, make_tally};
use pf_tally::{lags, misses};
use pf_timeline::fault::NewFault;
use pf_timeline::timeline::Timeline;
use std::alloc::{AllocError, Global};
use std::marker::Model;

/// The planner's desk: a scenario, its run so far, and the history of all commands.
#[derive(Drop)]
pub struct Desk {
    pub(crate) run: ScenarioRun,
    pub(crate) history: History,
}

impl Model for Desk {
    ghost use Rattle.pf_desk.specs.Desk.{Shown};
    ghost use Rattle.pf_desk.specs.Kept.{shown_by, ArePartsOfDesk};

    ghost Value = { Shown };

    ghost view = { λ d. shown_by d.run.scenario d.run.timeline d.history.entries d.history.spare };

    ghost invariant = { λ d. ArePartsOfDesk d.run.scenario d.run.timeline d.history };
}

impl Desk {
    /// A desk with these settings, no event, no slot stepped and no history, which keeps a checkpoint each `every` slots, 1
    /// to `LARGEST_DISTANCE` of pf_scenario.
    ///
    /// # Errors
    ///
    /// `BadSettings` for any other `every`; `NoMemory` where memory is refused.
    pub fn open(alloc: Global, settings: Settings, every: u64) -> Result<Self, OpenFault>
        ensures bad_settings { (result ≡ Err BadSettings) ↔ ((every ≡ 0) ⊎ (largest_distance < every)) }
        ensures value { IfOk result
            (λ d. d ≡ record { state = opening_state settings; rows = []; denials = []; history = []; every = every; spare = d.spare }) }
        ensures desk { IfOk result (λ d. IsDesk d) }
    {
        let timeline = match Timeline::new(alloc, settings, every) {
            Ok(timeline) => timeline,
            Err(NewFault::BadSettings) => return Err(OpenFault::BadSettings),
            Err(NewFault::NoMemory) => return Err(OpenFault::NoMemory),
        };
        let scenario = Scenario::new(alloc, settings);
        Ok(Desk {
            run: ScenarioRun { scenario, timeline },
            history: History::new(alloc, settings.processors()),
        })
    }

    /// Answers the caller's command as the machine does, and enters it. A step counts one slot; at the horizon and out of
    /// memory it counts none. An edit whose least touched slot s is below now counts at most now - s slots and the distance
    /// of two checkpoints, which is at most 32 slots where s is among the last 256. It never counts more than now, also where
    /// it is refused or memory runs out; any other edit counts none. A step of a slot with c processors in use, n tasks
    /// inside before, and g events makes at most (4c + 2 + 4g) times as many comparisons as n + g has binary digits.
    ///
    /// # Errors
    ///
    /// Where memory is refused: the desk is as before, but may have more room for entries.
    pub fn apply(
        &mut self,
        meter: &mut Meter,
        caller: u32,
        command: Command,
    ) -> Result<Reply, AllocError>
        ensures ok { IfOk result (λ reply. AnswersCaller caller command self.old reply self.new) }
        ensures err { OnErr result (IsAsBefore self.old self.new) }
        ensures desk { IsDesk self.new }
        ensures refused { IfOk result (λ reply. LeavesRest reply self.old self.new) }

        // A slot that was taken counts one.
        ensures counted { IfOk result (λ reply. IsStepped reply → meter.new.slots ≡ one_more meter.old.slots) }
        ensures at_most { CountsAtMost (most_slots self.old command) meter.old meter.new }
        ensures uncounted { IsUncounted self.old.state command → meter.new ≡ meter.old }
        ensures wanting { OnErr result (command ≡ Step → meter.new ≡ meter.old) }
        ensures compared { meter.old.compared ≤ meter.new.compared }
        ensures comparisons { command ≡ Step → meter.new.compared ≤ meter.old.compared + most_comparisons_at self.old.state.plan self.old.state.now }
    {
        self.history.reserve(self.run.timeline.rows())?;
        let reply = self.run.apply(self.history.alloc(), meter, command)?;
        self.history.enter(caller, command, &reply);
        Ok(reply)
    }

    /// Answers the caller's step as `apply` does, and enters it, without a row of its own: what was answered is the
    /// history's last entry.
    ///
    /// # Errors
    ///
    /// Where memory is refused: the desk is as before, but may have more room for entries.
    pub fn step(&mut self, meter: &mut Meter, caller: u32) -> Result<(), AllocError>
        ensures ok { OnOk result (AnswersCaller caller Step self.old (reply_to self.old.state Step) self.new) }
        ensures err { OnErr result (IsAsBefore self.old self.new) }
        ensures desk { IsDesk self.new }
        ensures refused { OnOk result (LeavesRest (reply_to self.old.state Step) self.old self.new) }

        // A slot that was taken counts one.
        ensures counted { OnOk result (IsStepped (reply_to self.old.state Step) → meter.new.slots ≡ one_more meter.old.slots) }
        ensures at_most { CountsAtMost 1 meter.old meter.new }
        ensures uncounted { IsUncounted self.old.state Step → meter.new ≡ meter.old }
        ensures wanting { OnErr result (meter.new ≡ meter.old) }
        ensures compared { meter.old.compared ≤ meter.new.compared }
        ensures comparisons { meter.new.compared ≤ meter.old.compared + most_comparisons_at self.old.state.plan self.old.state.now }
    {
        self.history.reserve(self.run.timeline.rows())?;
        let slot = self.run.timeline.now();
        self.run.take_slot(meter)?;
        self.history
            .enter_step(caller, slot, self.run.timeline.rows().get(slot));
        Ok(())
    }

    /// Makes a caller's command ready for `commit`: the desk is as before, but has room for one entry at least. Counts as
    /// `apply` does; a step that wants memory may count one slot.
    ///
    /// # Errors
    ///
    /// Where memory is refused.
    pub fn prepare(
        &mut self,
        meter: &mut Meter,
        caller: u32,
        command: Command,
    ) -> Result<Prepared, AllocError>
        ensures ok { IfOk result (λ p. MakesReady caller command self.old p) }
        ensures ready { IfOk result (λ p. IsReadyFor self.new p) }
        ensures room { OnOk result (1 ≤ self.new.spare) }
        ensures before { IsAsBefore self.old self.new }
        ensures desk { IsDesk self.new }

        // A slot that was taken counts one.
        ensures counted { IfOk result (λ p. IsStepped p.entry.reply → meter.new.slots ≡ one_more meter.old.slots) }
        ensures at_most { CountsAtMost (most_slots self.old command) meter.old meter.new }
        ensures uncounted { IsUncounted self.old.state command → meter.new ≡ meter.old }
        ensures compared { meter.old.compared ≤ meter.new.compared }
        ensures comparisons { command ≡ Step → meter.new.compared ≤ meter.old.compared + most_comparisons_at self.old.state.plan self.old.state.now }
    {
        self.history.reserve(self.run.timeline.rows())?;
        let mut run = self.run.copy()?;
        let reply = run.apply(self.history.alloc(), meter, command)?;
        let entry = Entry {
            caller,
            command,
            reply,
        };
        Prepared::of(run, &self.history, entry)
    }

    /// Commits a prepared command: the same reply and the same desk as `apply` would give. It takes no memory and counts nothing.
    ///
    /// The desk must have the settings, the distance of checkpoints and the history that the command was made ready for,
    /// and room for an entry.
    pub fn commit(&mut self, prepared: Prepared) -> Reply
        requires ready { IsReadyFor self.old prepared }
        requires room { 1 ≤ self.old.spare }
        ensures reply { result ≡ prepared.entry.reply }
        ensures answers { AnswersCaller prepared.entry.caller prepared.entry.command self.old result self.new }
        ensures shown { prepared.seen ≡ seen_of self.new }
        ensures desk { IsDesk self.new }
        ensures refused { LeavesRest result self.old self.new }
        ensures spare { self.new.spare + 1 ≡ self.old.spare }
    {
        let Prepared {
            run,
            entry,
            snapshot: _,
            history: _,
        } = prepared;
        let Entry {
            caller,
            command,
            reply,
        } = entry;
        self.run = run;
        self.history.enter(caller, command, &reply);
        reply
    }

    /// What is planned.
    pub fn scenario(&self) -> &Scenario
        ensures value { result.now ≡ self.now.state.plan }
        ensures desk { IsDesk self.now }
    {
        &self.run.scenario
    }

    /// How many slots were stepped.
    pub fn now(&self) -> u64
        ensures value { result ≡ self.now.state.now }
        ensures desk { IsDesk self.now }
    {
        self.run.timeline.now()
    }

    /// How far the desk's checkpoints lie apart, in slots.
    pub fn distance(&self) -> u64
        ensures value { result ≡ self.now.every }
        ensures desk { IsDesk self.now }
    {
        // A field is read, so that what holds of every desk is known.
        let _ = &self.history;
        self.run.timeline.distance()
    }

    /// The rows of the slots below now.
    pub fn schedule(&self) -> &Rows
        ensures value { result.now ≡ self.now.rows }
        ensures desk { IsDesk self.now }
    {
        self.run.timeline.rows()
    }

    /// The denials of the slots below now, in run order.
    pub fn denials(&self) -> &[Denied]
        ensures value { result.now ≡ self.now.denials }
        ensures desk { IsDesk self.now }
    {
        self.run.timeline.denials()
    }

    /// All entries, in the order of the answers.
    pub fn history(&self) -> &History
        ensures value { result.now.entries ≡ self.now.history }
        ensures desk { IsDesk self.now }
    {
        &self.history
    }

    /// How far each task inside is from its fair share, by task number.
    ///
    /// # Errors
    ///
    /// Where memory is refused.
    pub fn lags(&self) -> Result<Vec<Lag>, AllocError>
        ensures { IfOk result (λ v. v.items ≡ lags_of self.now.state.plan (run_of self.now.state.plan self.now.state.now)) }
    {
        lags::lags(
            self.history.alloc(),
            &self.run.scenario,
            self.run.timeline.rows(),
            self.run.timeline.denials(),
        )
    }

    /// The missed windows, by deadline, then by task number.
    ///
    /// # Errors
    ///
    /// Where memory is refused.
    pub fn misses(&self) -> Result<Vec<Miss>, AllocError>
        ensures { IfOk result (λ v. v.items ≡ misses_of self.now.state.plan (run_of self.now.state.plan self.now.state.now)) }
    {
        misses::misses(
            self.history.alloc(),
            &self.run.scenario,
            self.run.timeline.rows(),
            self.run.timeline.denials(),
        )
    }

    /// What `lags` and `misses` give, by one walk over the run.
    ///
    /// # Errors
    ///
    /// Where memory is refused.
    pub fn tally(&self) -> Result<Tally, AllocError>
        ensures lags { IfOk result (λ tally. tally.lags.items ≡ lags_of self.now.state.plan (run_of self.now.state.plan self.now.state.now)) }
        ensures misses { IfOk result (λ tally. tally.misses.items ≡ misses_of self.now.state.plan (run_of self.now.state.plan self.now.state.now)) }
    {
        make_tally(
            self.history.alloc(),
            &self.run.scenario,
            self.run.timeline.rows(),
            self.run.timeline.denials(),
        )
    }

    /// What the desk shows now.
    ///
    /// # Errors
    ///
    /// Where memory is refused.
    pub fn snapshot(&self) -> Result<Snapshot, AllocError>
        ensures stands { IfOk result (λ s. StandsForHistory self.now.history s) }
        ensures shown { IfOk result
            (λ s. s ≡ record { version = length self.now.history; state = self.now.state; rows = self.now.rows; denials = self.now.denials }) }
    {
        self.run
            .snapshot(self.history.alloc(), self.history.len() as u64)
    }
}
