use crate::absence::{Absence, joined_behind};
use crate::grounds::Grounds;
use crate::in_force::{before_event, event_of, in_force, is_held, join_among, leave_taken};
use crate::inside::{cost_within, joined_at, joined_by, load_of};
use crate::walk::{bound_with, last_in, leaves_in, ran_of, release_with, sub_of};
use pf_admit::denial::Denial;
use pf_desk::snapshot::Snapshot;
use pf_run::denied::Denied;
use pf_scenario::event::{Event, Numbered};
use pf_tally::admitted::Admitted;
use pf_tally::standing::{denied_numbers, is_among};
use std::alloc::{AllocError, Global};
use std::marker::Model;

/// Why events of a run were denied and tasks are not inside, by what a snapshot shows of it.
#[derive(Drop)]
pub struct Reasons<'a> {
    snapshot: &'a Snapshot,
    /// The events of the slots stepped, in run order.
    past: Vec<Numbered>,
    /// The numbers of those that were denied, rising.
    denied: Vec<u64>,
}

impl<'a> Model for Reasons<'a> {
    ghost use Rattle.pf_scenario.specs.Scenario.{past};
    ghost use Rattle.pf_tally.specs.Standing.{AreNumbersOf};
    ghost use Rattle.pf_run.specs.RunRows.{AreOfRun};
    ghost use Rattle.pf_desk.specs.Desk.{Seen};
    ghost use Rattle.pf_notes.specs.Reasons.{AreReasons};

    ghost Value = { Seen };

    ghost view = { λ r. r.snapshot.now };

    ghost invariant = { λ r. AreReasons r.snapshot.now r.past.items r.denied.items };
}

impl<'a> Reasons<'a> {
    ghost use Rattle.std.specs.Prelude.{◌≡◌, ◌+◌, ◌<◌, ◌≤◌, List, Some, IfOk, All, length};
    ghost use Rattle.std.specs.Option.{option_map};
    ghost use Rattle.pf_scenario.specs.Edit.{IsEvent};
    ghost use Rattle.pf_scenario.specs.Scenario.{past};
    ghost use Rattle.pf_run.specs.Inside.{joined_by};
    ghost use Rattle.pf_scenario.specs.declared.settings.TheConstants.{WIDE_HORIZON};
    ghost use Rattle.pf_scenario.specs.declared.event.Numbered.{Numbered};
    ghost use Rattle.pf_run.specs.Record.{in_force, is_denied};
    ghost use Rattle.pf_run.specs.Computed.{run_of};
    ghost use Rattle.pf_notes.specs.Absence.{absence_of, absent_by, leave_among};
    ghost use Rattle.pf_notes.specs.Grounds.{grounds_of, grounds_for, over_capacity, early_leave, late_delay};
    ghost use Rattle.pf_notes.specs.Point.{before_event, event_of, joined_at};
    ghost use Rattle.pf_notes.specs.Reasons.{IsFront, IsPoint};
    ghost use Rattle.pf_notes.specs.declared.grounds.Grounds.TheVariants.{NotInside};

    /// The reasons of a snapshot. It passes over the events of the slots stepped once.
    ///
    /// # Errors
    ///
    /// Where memory is refused.
    pub fn of(alloc: Global, snapshot: &'a Snapshot) -> Result<Self, AllocError>
        ensures { IfOk result (λ r. r ≡ snapshot.now) }
    {
        let now = snapshot.now();
        let denied = denied_numbers(alloc, snapshot.denials())?;
        let past = snapshot.scenario().events_before(now)?;
        Ok(Reasons {
            snapshot,
            past,
            denied,
        })
    }

    /// What a denial of the run rests on; nothing of what is no denial of it. It passes over the events, and over the slots from
    /// the task's quantum before a leave or a delay on, up to the slot in which a leave would be let go.
    ///
    /// # Errors
    ///
    /// Where memory is refused.
    pub fn grounds(&self, alloc: Global, denied: Denied) -> Result<Option<Grounds>, AllocError>
        ensures { IfOk result (λ g. g ≡ grounds_of self.now.state.plan (run_of self.now.state.plan self.now.state.now) denied) }
    {
        match event_of(&self.past, denied.id) {
            Some(numbered) => self.grounds_for(alloc, numbered, denied.denial),
            None => Ok(None),
        }
    }

    /// What the denial of an event of the run's slots rests on.
    fn grounds_for(
        &self,
        alloc: Global,
        numbered: Numbered,
        denial: Denial,
    ) -> Result<Option<Grounds>, AllocError>
        requires { event_of numbered.id (past self.now.state.plan self.now.state.now) ≡ Some numbered }
        ensures { IfOk result (λ g. g ≡ grounds_for self.now.state.plan (run_of self.now.state.plan self.now.state.now) self.now.denials
            (before_event numbered.id (past self.now.state.plan self.now.state.now)) numbered.event denial) }
    {
        let before = before_event(&self.past, numbered.id);
        match (numbered.event, denial) {
            (Event::Join { .. }, Denial::OverCapacity) => {
                self.over_capacity(alloc, before, numbered.event)
            }
            (Event::Leave { slot, task }, Denial::NotInside) => {
                Ok(self.not_inside(before, slot, task))
            }
            (Event::Delay { slot, task, .. }, Denial::NotInside) => {
                Ok(self.not_inside(before, slot, task))
            }
            (Event::Leave { slot, task }, Denial::TooEarly) => {
                self.early_leave(alloc, before, slot, task)
            }
            (Event::Delay { slot, task, .. }, Denial::Released) => {
                self.late_delay(alloc, before, slot, task)
            }
            _ => Ok(None),
        }
    }

    /// Those of these events that are in force.
    fn standing(&self, alloc: Global, before: &[Numbered]) -> Result<Vec<Numbered>, AllocError>
        requires { IsFront self.now before.now }
        ensures value { IfOk result (λ v. v.items ≡ in_force self.now.denials before.now) }
        ensures limits { IfOk result (λ v. All (λ x. IsEvent self.now.state.plan.settings x.event) v.items) }
        ensures few { IfOk result (λ v. length v.items ≤ 65535) }
    {
        let standing = in_force(alloc, before, &self.denied)?;
        Ok(standing)
    }

    /// What a join after these events asks for, and what is free.
    fn over_capacity(
        &self,
        alloc: Global,
        before: &[Numbered],
        join: Event,
    ) -> Result<Option<Grounds>, AllocError>
        requires front { IsFront self.now before.now }
        requires limits { IsEvent self.now.state.plan.settings join }
        ensures { IfOk result (λ g. g ≡ option_map (over_capacity self.now.state.plan self.now.denials before.now) (joined_by self.now.state.plan.settings.base join)) }
    {
        let settings = self.snapshot.settings();
        let standing = self.standing(alloc, before)?;
        let load = load_of(alloc, settings, &standing)?;
        let free = settings.cap().saturating_sub(load);
        match joined_by(settings, &join) {
            Some(joined) => Ok(Some(Grounds::OverCapacity {
                asked: joined.weight.units(),
                free,
                base: settings.base(),
                cost: cost_within(settings, joined.weight, free),
            })),
            None => Ok(None),
        }
    }

    /// Whether the event was denied.
    fn is_denied(&self, numbered: &Numbered) -> bool
        ensures { result ≡ is_denied self.now.denials numbered.now }
    {
        is_among(&self.denied, numbered.id)
    }

    /// The first of these events that is a leave of the task and was not denied.
    fn leave_taken(&self, before: &[Numbered], task: u64) -> Option<Numbered>
        ensures { result ≡ leave_among task (in_force self.now.denials before.now) }
    {
        leave_taken(before, &self.denied, task)
    }

    /// Why the task, which this event joins, is not inside at a point of this slot, after these events.
    fn absent_by(
        &self,
        before: &[Numbered],
        slot: u64,
        task: u64,
        join: Numbered,
    ) -> Option<Absence>
        ensures { result ≡ absent_by self.now.denials before.now slot task (Some join) }
    {
        if !is_held(before, join.id) {
            return Some(joined_behind(slot, join));
        }
        if self.is_denied(&join) {
            return Some(Absence::JoinDenied {
                slot: join.event.slot(),
                event: join.id,
            });
        }
        match self.leave_taken(before, task) {
            Some(leave) => Some(Absence::Left {
                slot: leave.event.slot(),
                event: leave.id,
            }),
            None => None,
        }
    }

    /// Why the task is not inside at a point of this slot, after these events.
    fn absence_behind(&self, before: &[Numbered], slot: u64, task: u64) -> Option<Absence>
        ensures { result ≡ absence_of self.now.state.plan.events self.now.denials before.now slot task }
    {
        match join_among(self.snapshot.scenario(), task) {
            Some(join) => self.absent_by(before, slot, task, join),
            None => Some(Absence::NoJoin),
        }
    }

    /// The same of a leave or a delay that was denied.
    fn not_inside(&self, before: &[Numbered], slot: u64, task: u64) -> Option<Grounds>
        ensures { result ≡ option_map (NotInside task) (absence_of self.now.state.plan.events self.now.denials before.now slot task) }
    {
        match self.absence_behind(before, slot, task) {
            Some(absence) => Some(Grounds::NotInside { task, absence }),
            None => None,
        }
    }

    /// Why the task is not inside after the events of the slots up to this one; nothing where no leave of it was taken.
    ///
    /// # Errors
    ///
    /// Where memory is refused.
    pub fn absence(
        &self,
        alloc: Global,
        task: u64,
        slot: u64,
    ) -> Result<Option<Absence>, AllocError>
        requires { slot < self.now.state.now }
        ensures { IfOk result (λ a. a ≡ absence_of self.now.state.plan.events self.now.denials (past self.now.state.plan (slot + 1)) slot task) }
    {
        let before = self.snapshot.scenario().events_before(slot + 1)?;
        Ok(self.absence_behind(&before, slot, task))
    }

    /// Which subtask ran before a leave in the slot and when, and when the task may leave.
    fn leave_grounds(
        &self,
        alloc: Global,
        joined: &Admitted,
        slot: u64,
    ) -> Result<Grounds, AllocError>
        requires joined { joined.now.slot ≤ WIDE_HORIZON }
        requires within { slot < self.now.state.now }
        ensures { (before : List Numbered) → IsPoint self.now before slot → IfOk result
            (λ g. g ≡ early_leave self.now.state.plan (run_of self.now.state.plan self.now.state.now) (in_force self.now.denials before) slot joined.now) }
    {
        let settings = self.snapshot.settings();
        let rows = self.snapshot.rows();
        let whole = self.standing(alloc, &self.past)?;
        let quantum = last_in(settings.processors(), rows, joined.task, slot);
        let bound = bound_with(settings, joined, &whole, quantum);
        let last = self.snapshot.now().min(settings.horizon() - 1);
        let from = leaves_in(settings, rows, joined, &whole, bound, slot, last);
        let at_end = last_in(settings.processors(), rows, joined.task, last);
        Ok(Grounds::TooEarly {
            task: joined.task,
            sub: sub_of(quantum),
            slot,
            ran: ran_of(quantum),
            from,
            later: bound_with(settings, joined, &whole, at_end),
            horizon: settings.horizon(),
        })
    }

    /// The same of a leave in this slot, after these events.
    fn early_leave(
        &self,
        alloc: Global,
        before: &[Numbered],
        slot: u64,
        task: u64,
    ) -> Result<Option<Grounds>, AllocError>
        requires point { IsPoint self.now before.now slot }
        ensures { IfOk result (λ g. g ≡ option_map (early_leave self.now.state.plan (run_of self.now.state.plan self.now.state.now) (in_force self.now.denials before.now) slot)
            (joined_at self.now.state.plan.settings.base (in_force self.now.denials before.now) task)) }
    {
        let standing = self.standing(alloc, before)?;
        match joined_at(self.snapshot.settings(), &standing, task) {
            Some(joined) => {
                let grounds = self.leave_grounds(alloc, &joined, slot)?;
                Ok(Some(grounds))
            }
            None => Ok(None),
        }
    }

    /// Which subtask was released before a delay in the slot, where these events are in force before it, and when.
    fn delay_grounds(&self, joined: &Admitted, standing: &[Numbered], slot: u64) -> Grounds
        requires joined { joined.now.slot ≤ WIDE_HORIZON }
        requires limits { All (λ x. IsEvent self.now.state.plan.settings x.event) standing.now }
        requires few { length standing.now ≤ 65535 }
        requires within { slot < self.now.state.now }
        ensures { (before : List Numbered) → IsPoint self.now before slot → standing.now ≡ in_force self.now.denials before →
            result ≡ late_delay (run_of self.now.state.plan self.now.state.now) standing.now slot joined.now }
    {
        let settings = self.snapshot.settings();
        let rows = self.snapshot.rows();
        let quantum = last_in(settings.processors(), rows, joined.task, slot);
        Grounds::Released {
            task: joined.task,
            sub: sub_of(quantum) + 1,
            slot: release_with(settings, joined, standing, slot, quantum),
        }
    }

    /// The same of a delay in this slot, after these events.
    fn late_delay(
        &self,
        alloc: Global,
        before: &[Numbered],
        slot: u64,
        task: u64,
    ) -> Result<Option<Grounds>, AllocError>
        requires point { IsPoint self.now before.now slot }
        ensures { IfOk result (λ g. g ≡ option_map (late_delay (run_of self.now.state.plan self.now.state.now) (in_force self.now.denials before.now) slot)
            (joined_at self.now.state.plan.settings.base (in_force self.now.denials before.now) task)) }
    {
        let standing = self.standing(alloc, before)?;
        match joined_at(self.snapshot.settings(), &standing, task) {
            Some(joined) => Ok(Some(self.delay_grounds(&joined, &standing, slot))),
            None => Ok(None),
        }
    }
}
