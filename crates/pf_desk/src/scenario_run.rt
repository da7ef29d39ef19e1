ghost use Rattle.std.specs.Prelude.{◌≡◌, ◌<◌, ◌≤◌, ◌+◌, if◌then◌else◌, [], length, None, Some, IfOk, OnOk, OnErr};
ghost use Rattle.std.specs.List.{slice_get, slice_index_or};
ghost use Rattle.pf_order.specs.Counts.{one_more};
ghost use Rattle.pf_order.specs.Counted.{CountsAtMost};
ghost use Rattle.pf_scenario.specs.Checked.{IsCheckedFor};
ghost use Rattle.pf_timeline.specs.Comparisons.{most_comparisons_at};
ghost use Rattle.pf_desk.specs.declared.command.Command.TheVariants.{Edit, Step};
ghost use Rattle.pf_desk.specs.declared.reply.Reply.TheVariants.{Refused};
ghost use Rattle.pf_desk.specs.declared.reply.Fault.TheVariants.{WouldDeny};
ghost use Rattle.pf_desk.specs.Machine.{IsStepped, reply_by_row};
ghost use Rattle.pf_desk.specs.Desk.{IsUncounted, most_replayed};
ghost use Rattle.pf_desk.specs.Applied.{Stands, IsApplied, state_in, most_counted};

use crate::command::Command;
use crate::reply::{Fault, Reply};
use crate::snapshot::Snapshot;
use pf_order::meter::Meter;
use pf_place::row::{Row, idle};
use pf_place::rows::Rows;
use pf_run::denied::Denied;
use pf_scenario::change::Change;
use pf_scenario::checked_change::CheckedChange;
use pf_scenario::scenario::Scenario;
use pf_timeline::timeline::Timeline;
use std::alloc::{AllocError, Global};

/// A scenario with its run so far.
pub struct ScenarioRun {
    /// What is planned.
    pub scenario: Scenario,
    /// Its run over the slots that were stepped.
    pub timeline: Timeline,
}

// A call of its own, so that who drops a run sees none of its parts.
impl Drop for ScenarioRun {
    fn drop(self) {
        let ScenarioRun {
            scenario: _,
            timeline: _,
        } = self;
    }
}

impl ScenarioRun {
    /// An equal scenario with its run, which shares events, checkpoints, denials and the full blocks of rows with this one.
    ///
    /// # Errors
    ///
    /// Where memory is refused.
    pub fn copy(&self) -> Result<Self, AllocError>
        requires { Stands self.now }
        ensures { IfOk result (λ run. run ≡ self.now) }
    {
        let timeline = self.timeline.copy(&self.scenario)?;
        let scenario = self.scenario.copy()?;
        Ok(ScenarioRun { scenario, timeline })
    }

    /// Answers a command as the desk machine does, all or nothing. Counts as `Desk::apply` does.
    ///
    /// # Errors
    ///
    /// Where memory is refused: scenario and run are as before.
    pub fn apply(
        &mut self,
        alloc: Global,
        meter: &mut Meter,
        command: Command,
    ) -> Result<Reply, AllocError>
        requires { Stands self.old }
        ensures ok { IfOk result (λ reply. IsApplied command self.old reply self.new) }
        ensures err { OnErr result (self.new ≡ self.old) }

        // A slot that was taken counts one.
        ensures counted { IfOk result (λ reply. IsStepped reply → meter.new.slots ≡ one_more meter.old.slots) }
        ensures at_most { CountsAtMost (most_counted self.old command) meter.old meter.new }
        ensures uncounted { IsUncounted (state_in self.old) command → meter.new ≡ meter.old }
        ensures wanting { OnErr result (command ≡ Step → meter.new ≡ meter.old) }
        ensures compared { meter.old.compared ≤ meter.new.compared }
        ensures comparisons { command ≡ Step → meter.new.compared ≤ meter.old.compared + most_comparisons_at self.old.scenario self.old.timeline.now }
    {
        match command {
            Command::Edit { change, strict } => self.edit(meter, change, strict),
            Command::Step => self.step(alloc, meter),
        }
    }

    /// Takes the next slot, where there is one. Counts as a step does.
    ///
    /// # Errors
    ///
    /// Where memory is refused: scenario and run are as before.
    pub fn take_slot(&mut self, meter: &mut Meter) -> Result<(), AllocError>
        requires { Stands self.old }
        ensures ok { OnOk result (IsApplied Step self.old (reply_by_row self.old.timeline.now (slice_get self.new.timeline.rows self.old.timeline.now)) self.new) }
        ensures err { OnErr result (self.new ≡ self.old) }
        ensures counted { OnOk result (IsStepped (reply_by_row self.old.timeline.now (slice_get self.new.timeline.rows self.old.timeline.now)) → meter.new.slots ≡ one_more meter.old.slots) }
        ensures at_most { CountsAtMost 1 meter.old meter.new }
        ensures uncounted { self.old.timeline.now ≡ self.old.scenario.settings.horizon → meter.new ≡ meter.old }
        ensures wanting { OnErr result (meter.new ≡ meter.old) }
        ensures compared { meter.old.compared ≤ meter.new.compared }
        ensures comparisons { meter.new.compared ≤ meter.old.compared + most_comparisons_at self.old.scenario self.old.timeline.now }
    {
        if self.timeline.now() == self.scenario.settings().horizon() {
            return Ok(());
        }
        self.timeline.advance(meter, &self.scenario)?;
        Ok(())
    }

    /// What a desk of these parts shows after so many entries.
    ///
    /// # Errors
    ///
    /// Where memory is refused.
    pub fn snapshot(&self, alloc: Global, version: u64) -> Result<Snapshot, AllocError>
        requires { Stands self.now }
        ensures { IfOk result
            (λ s. s ≡ record { version = version; state = state_in self.now; rows = self.now.timeline.rows; denials = self.now.timeline.denials }) }
    {
        Snapshot::of(
            alloc,
            version,
            &self.scenario,
            self.timeline.rows(),
            self.timeline.shared_denials(),
        )
    }

    /// Takes the next slot.
    fn step(&mut self, alloc: Global, meter: &mut Meter) -> Result<Reply, AllocError>
        requires { Stands self.old }
        ensures ok { IfOk result (λ reply. IsApplied Step self.old reply self.new) }
        ensures err { OnErr result (self.new ≡ self.old) }
        ensures counted { IfOk result (λ reply. IsStepped reply → meter.new.slots ≡ one_more meter.old.slots) }
        ensures at_most { CountsAtMost 1 meter.old meter.new }
        ensures uncounted { self.old.timeline.now ≡ self.old.scenario.settings.horizon → meter.new ≡ meter.old }
        ensures wanting { OnErr result (meter.new ≡ meter.old) }
        ensures compared { meter.old.compared ≤ meter.new.compared }
        ensures comparisons { meter.new.compared ≤ meter.old.compared + most_comparisons_at self.old.scenario self.old.timeline.now }
    {
        let settings = self.scenario.settings();
        let slot = self.timeline.now();
        if slot == settings.horizon() {
            return Ok(Reply::Refused(Fault::AtHorizon));
        }
        let mut row = idle(alloc, settings.processors())?;
        self.timeline.advance(meter, &self.scenario)?;
        fill(&mut row, self.timeline.rows(), slot);
        Ok(Reply::Stepped { slot, row })
    }

    /// Makes a change.
    fn edit(&mut self, meter: &mut Meter, change: Change, strict: bool) -> Result<Reply, AllocError>
        requires { Stands self.old }
        ensures ok { IfOk result (λ reply. IsApplied (Edit change strict) self.old reply self.new) }
        ensures err { OnErr result (self.new ≡ self.old) }
        ensures edited { IfOk result (λ reply. ¬ IsStepped reply) }
        ensures at_most { CountsAtMost (most_counted self.old (Edit change strict)) meter.old meter.new }
        ensures uncounted { IsUncounted (state_in self.old) (Edit change strict) → meter.new ≡ meter.old }
        ensures compared { meter.old.compared ≤ meter.new.compared }
    {
        let checked = match self.scenario.checked(change) {
            Ok(checked) => checked,
            Err(fault) => return Ok(Reply::Refused(Fault::BadEdit(fault))),
        };
        if checked.first_slot() < self.timeline.now() {
            self.edit_past(meter, checked, strict)
        } else {
            self.edit_ahead(checked, strict)
        }
    }

    /// Makes a checked change that touches no slot below now: the run so far stays.
    fn edit_ahead(&mut self, checked: CheckedChange, strict: bool) -> Result<Reply, AllocError>
        requires stands { Stands self.old }
        requires checked { IsCheckedFor self.old.scenario checked }
        requires ahead { self.old.timeline.now ≤ checked.first_slot }
        ensures ok { IfOk result (λ reply. IsApplied (Edit checked.change strict) self.old reply self.new) }
        ensures err { OnErr result (self.new ≡ self.old) }
        ensures edited { IfOk result (λ reply. ¬ IsStepped reply) }
    {
        if let Some(denied) = objection(strict, self.timeline.denials()) {
            return Ok(Reply::Refused(would_deny(denied)));
        }
        let id = self.scenario.make(checked)?;
        Ok(Reply::Edited { id })
    }

    /// Makes a checked change whose least touched slot is below now: the run so far is replayed apart.
    fn edit_past(
        &mut self,
        meter: &mut Meter,
        checked: CheckedChange,
        strict: bool,
    ) -> Result<Reply, AllocError>
        requires stands { Stands self.old }
        requires checked { IsCheckedFor self.old.scenario checked }
        requires below { checked.first_slot < self.old.timeline.now }
        ensures ok { IfOk result (λ reply. IsApplied (Edit checked.change strict) self.old reply self.new) }
        ensures err { OnErr result (self.new ≡ self.old) }
        ensures edited { IfOk result (λ reply. ¬ IsStepped reply) }
        ensures at_most { CountsAtMost (most_replayed self.old.timeline.now self.old.timeline.every (Some checked.first_slot)) meter.old meter.new }
        ensures compared { meter.old.compared ≤ meter.new.compared }
    {
        let from = checked.first_slot();
        let mut changed = self.scenario.copy()?;
        let id = changed.make(checked)?;
        let timeline = self.timeline.rewritten(meter, from, &changed)?;
        if let Some(denied) = objection(strict, timeline.denials()) {
            return Ok(Reply::Refused(would_deny(denied)));
        }
        self.scenario = changed;
        self.timeline = timeline;
        Ok(Reply::Edited { id })
    }
}

/// The denial that a strict edit is refused for, where the run so far would have these: the first.
fn objection(strict: bool, denials: &[Denied]) -> Option<Denied>
    ensures { result ≡ (if strict then slice_get denials.now 0 else None) }
{
    if strict {
        denials.first().copied()
    } else {
        None
    }
}

/// Why a strict edit is refused after which this event would be the first denied.
fn would_deny(denied: Denied) -> Fault
    ensures { result ≡ WouldDeny denied.id denied.denial }
{
    Fault::WouldDeny {
        id: denied.id,
        denial: denied.denial,
    }
}

/// Writes the row of a slot into a row of as many places; it takes no memory.
fn fill(row: &mut Row, rows: &Rows, slot: u64)
    requires within { slot < length rows.now }
    requires places { length row.old ≡ length (slice_index_or rows.now slot []) }
    ensures { row.new ≡ slice_index_or rows.now slot [] }
{
    match rows.get(slot) {
        Some(taken) => row.assign(taken),
        None => unreachable!(),
    }
}
