ghost use Rattle.std.specs.Prelude.{◌≡◌, ◌≤◌, ◌↔◌, Option, Some, None, IfOk, OnOk, OnErr, Err};
ghost use Rattle.std.specs.List.{list_any};
ghost use Rattle.std.specs.Result.{result_err};
ghost use Rattle.pf_scenario.specs.Scenario.{Plan, opening_plan, is_held, events_without, plan_after, number_of_change, held_slot, slot_touched, events_of, past};
ghost use Rattle.pf_scenario.specs.Edit.{IsScenario, event_fault, edit_fault, unless, join_alike, leave_alike};
ghost use Rattle.pf_scenario.specs.Checked.{IsCheckedFor};
ghost use Rattle.pf_scenario.specs.Index.{event_at};
ghost use Rattle.pf_scenario.specs.declared.fault.EditFault.{EditFault};
ghost use Rattle.pf_scenario.specs.declared.fault.EditFault.TheVariants.{EventNotFound};
ghost use Rattle.pf_scenario.specs.declared.change.Change.TheVariants.{Insert, Alter, Strike};
ghost use Rattle.pf_scenario.specs.declared.apply_fault.ApplyFault.TheVariants.{Refused};

use crate::apply_fault::ApplyFault;
use crate::change::Change;
use crate::checked_change::CheckedChange;
use crate::event::{Event, Numbered};
use crate::events::Events;
use crate::fault::EditFault;
use crate::found::Found;
use crate::limits::check_limits;
use crate::settings::Settings;
use crate::shared_agenda::SharedAgenda;
use std::alloc::{AllocError, Global};
use std::marker::Model;

/// The most events that a scenario holds.
pub const MOST_EVENTS: usize = 65535;

/// The last event number that is given.
pub const LAST_NUMBER: u64 = 1_048_575;

/// What is planned: settings, and the events held, each with its number.
#[derive(Debug)]
pub struct Scenario {
    settings: Settings,
    events: SharedAgenda,
    next: u64,
}

// A call of its own, so that who drops a scenario sees none of its parts.
impl Drop for Scenario {
    fn drop(self) {
        let Scenario {
            settings: _,
            events: _,
            next: _,
        } = self;
    }
}

impl Model for Scenario {
    ghost use Rattle.pf_scenario.specs.Scenario.{Plan};
    ghost use Rattle.pf_scenario.specs.Edit.{IsScenario};

    ghost Value = { Plan };

    ghost view = { λ s. record { settings = s.settings; events = s.events; next = s.next } };

    ghost invariant = { λ s. IsScenario (record { settings = s.settings; events = s.events; next = s.next }) };
}

impl Scenario {
    /// The scenario with no events. The first event gets the number 1.
    pub fn new(alloc: Global, settings: Settings) -> Self
        ensures value { result ≡ opening_plan settings }
        ensures scenario { IsScenario result }
    {
        // What settings keep is known from their calls alone.
        let _ = settings.horizon();
        Scenario {
            settings,
            events: SharedAgenda::new(alloc),
            next: 1,
        }
    }

    /// Whether the change can be made.
    ///
    /// # Errors
    ///
    /// Why it is refused: the first test that fails, in the order of `EditFault`.
    pub fn check(&self, change: &Change) -> Result<(), EditFault>
        ensures value { result_err result ≡ edit_fault self.now change.now }
        ensures scenario { IsScenario self.now }
    {
        self.checked(*change)?;
        Ok(())
    }

    /// The change, checked, for `make`.
    ///
    /// # Errors
    ///
    /// Why it is refused: the first test that fails, in the order of `EditFault`.
    pub fn checked(&self, change: Change) -> Result<CheckedChange, EditFault>
        ensures value { result_err result ≡ edit_fault self.now change }
        ensures ok { IfOk result (λ c. (c.change ≡ change) × IsCheckedFor self.now c) }
        ensures scenario { IsScenario self.now }
    {
        match change {
            Change::Insert(event) => {
                self.check_insert(&event)?;
                Ok(CheckedChange {
                    change,
                    first_slot: event.slot(),
                    at: 0,
                })
            }
            Change::Alter(id, event) => {
                let found = self.find_held(id)?;
                self.check_event(id, &event)?;
                Ok(CheckedChange {
                    change,
                    first_slot: found.event.slot().min(event.slot()),
                    at: found.at,
                })
            }
            Change::Strike(id) => {
                let found = self.find_held(id)?;
                Ok(CheckedChange {
                    change,
                    first_slot: found.event.slot(),
                    at: found.at,
                })
            }
        }
    }

    /// The event of this number, and where it stands. Refused where it is not held.
    fn find_held(&self, id: u64) -> Result<Found, EditFault>
        ensures value { result_err result ≡ unless (is_held self.now.events id) EventNotFound }
        ensures found { IfOk result (λ f. event_at self.now.events id ≡ Some f.event) }
        ensures scenario { IsScenario self.now }
    {
        match self.events.find(id) {
            Some(found) => Ok(found),
            None => Err(EditFault::EventNotFound),
        }
    }

    /// Why an insert of this event is refused.
    fn check_insert(&self, event: &Event) -> Result<(), EditFault>
        ensures value { result_err result ≡ edit_fault self.now (Insert event.now) }
        ensures scenario { IsScenario self.now }
    {
        self.check_new(event)?;
        if self.events.len() >= MOST_EVENTS {
            return Err(EditFault::TooManyEvents);
        }
        if self.next > LAST_NUMBER {
            return Err(EditFault::NumbersSpent);
        }
        Ok(())
    }

    /// Why a new event is refused.
    fn check_new(&self, event: &Event) -> Result<(), EditFault>
        ensures value { result_err result ≡ event_fault self.now.settings self.now.events event.now }
        ensures scenario { IsScenario self.now }
    {
        // No event has the number 0, which is known once a field is looked at.
        let _ = &self.events;
        self.check_event(0, event)
    }

    /// Why the event is refused beside the events of other numbers than this one.
    fn check_event(&self, id: u64, event: &Event) -> Result<(), EditFault>
        ensures { result_err result ≡ event_fault self.now.settings (events_without id self.now.events) event.now }
    {
        check_limits(self.settings, event)?;
        if self.joins_beside(id, event) {
            return Err(EditFault::JoinTwice);
        }
        if self.leaves_beside(id, event) {
            return Err(EditFault::LeaveTwice);
        }
        Ok(())
    }

    /// Whether an event of another number than this one joins the task that the event joins.
    fn joins_beside(&self, id: u64, event: &Event) -> bool
        ensures { result ≡ list_any (λ x. join_alike x.event event.now) (events_without id self.now.events) }
    {
        self.events.joins_beside(id, event)
    }

    /// Whether an event of another number than this one leaves the task that the event leaves.
    fn leaves_beside(&self, id: u64, event: &Event) -> bool
        ensures { result ≡ list_any (λ x. leave_alike x.event event.now) (events_without id self.now.events) }
    {
        self.events.leaves_beside(id, event)
    }

    /// Makes the change and gives the number of the event that it concerns.
    ///
    /// # Errors
    ///
    /// `Refused` where `check` refuses the change, and `NoMemory` where memory is refused: the scenario is as before.
    pub fn apply(&mut self, change: Change) -> Result<u64, ApplyFault>
        ensures ok { IfOk result (λ id. (id ≡ number_of_change self.old change) × (self.new ≡ plan_after self.old change)) }

        // It is refused just where `check` refuses it, also where memory is short.
        ensures refused { (f : EditFault) → (edit_fault self.old change ≡ Some f) ↔ (result ≡ Err (Refused f)) }
        ensures err { OnErr result (self.new ≡ self.old) }
        ensures scenario { IsScenario self.new }
    {
        let checked = self.checked(change).map_err(ApplyFault::Refused)?;
        Ok(self.make(checked)?)
    }

    /// Makes a change that was checked for this scenario, or for an equal one, and gives the number of the event that it
    /// concerns.
    ///
    /// # Errors
    ///
    /// Where memory is refused: the scenario is as before.
    pub fn make(&mut self, checked: CheckedChange) -> Result<u64, AllocError>
        requires { IsCheckedFor self.old checked }
        ensures ok { IfOk result (λ id. (id ≡ number_of_change self.old checked.change) × (self.new ≡ plan_after self.old checked.change)) }
        ensures err { OnErr result (self.new ≡ self.old) }
        ensures scenario { IsScenario self.new }
    {
        match checked.change {
            Change::Insert(event) => self.insert(event),
            Change::Alter(id, event) => {
                self.alter(checked.at, id, event)?;
                Ok(id)
            }
            Change::Strike(id) => {
                self.strike(checked.at, id)?;
                Ok(id)
            }
        }
    }

    /// Holds a new event under the next number.
    fn insert(&mut self, event: Event) -> Result<u64, AllocError>
        requires { edit_fault self.old (Insert event) ≡ None }
        ensures ok { IfOk result (λ id. (id ≡ self.old.next) × (self.new ≡ plan_after self.old (Insert event))) }
        ensures err { OnErr result (self.new ≡ self.old) }
        ensures scenario { IsScenario self.new }
    {
        let id = self.next;
        self.events.push(Numbered { id, event })?;
        self.next += 1;
        Ok(id)
    }

    /// Puts the event in place of the one of this number, which is looked for at `first`.
    fn alter(&mut self, first: usize, id: u64, event: Event) -> Result<(), AllocError>
        requires { edit_fault self.old (Alter id event) ≡ None }
        ensures ok { OnOk result (self.new ≡ plan_after self.old (Alter id event)) }
        ensures err { OnErr result (self.new ≡ self.old) }
        ensures scenario { IsScenario self.new }
    {
        self.events.replace(first, id, event)?;
        Ok(())
    }

    /// Drops the event of this number, which is looked for at `first`.
    fn strike(&mut self, first: usize, id: u64) -> Result<(), AllocError>
        requires { edit_fault self.old (Strike id) ≡ None }
        ensures ok { OnOk result (self.new ≡ plan_after self.old (Strike id)) }
        ensures err { OnErr result (self.new ≡ self.old) }
        ensures scenario { IsScenario self.new }
    {
        self.events.take_out(first, id)?;
        Ok(())
    }

    /// The least slot that the change touches: for an alter the lower of the old slot and the new. `None` where no
    /// event has the number.
    pub fn first_slot(&self, change: &Change) -> Option<u64>
        ensures { result ≡ slot_touched self.now change.now }
    {
        match *change {
            Change::Insert(event) => Some(event.slot()),
            Change::Alter(id, event) => {
                let old = self.held_slot(id)?;
                Some(old.min(event.slot()))
            }
            Change::Strike(id) => self.held_slot(id),
        }
    }

    /// The slot of the event of this number, where it is held.
    fn held_slot(&self, id: u64) -> Option<u64>
        ensures { result ≡ held_slot self.now.events id }
    {
        let found = self.events.find(id)?;
        Some(found.event.slot())
    }

    /// The events, in rising order of their numbers.
    pub fn events(&self) -> Events<'_>
        ensures value { result ≡ self.now.events }
        ensures scenario { IsScenario self.now }
    {
        self.events.iter()
    }

    /// The events of slot t, in the order in which a run takes them; none where t is not below the horizon.
    ///
    /// # Errors
    ///
    /// Where memory is refused.
    pub fn slot_events(&self, t: u64) -> Result<Vec<Numbered>, AllocError>
        ensures value { IfOk result (λ v. v.items ≡ events_of self.now t) }
        ensures scenario { IsScenario self.now }
    {
        self.events.of_slot(t)
    }

    /// The events of the slots below t, in the order in which a run takes them. It costs by those events, not by slots.
    ///
    /// # Errors
    ///
    /// Where memory is refused.
    pub fn events_before(&self, t: u64) -> Result<Vec<Numbered>, AllocError>
        ensures value { IfOk result (λ v. v.items ≡ past self.now t) }
        ensures scenario { IsScenario self.now }
    {
        self.events.below(t)
    }

    /// The number that the next new event gets, 1 to 1,048,576; the last is never given.
    pub fn next_number(&self) -> u64
        ensures value { result ≡ self.now.next }
        ensures some { 1 ≤ result }
        ensures scenario { IsScenario self.now }
    {
        self.next
    }

    /// What the scenario is set in.
    pub fn settings(&self) -> Settings
        ensures value { result ≡ self.now.settings }
        ensures scenario { IsScenario self.now }
    {
        self.settings
    }

    /// An equal scenario, which shares its events with this one until either is changed.
    ///
    /// # Errors
    ///
    /// Where memory is refused.
    pub fn copy(&self) -> Result<Self, AllocError>
        ensures value { IfOk result (λ s. s ≡ self.now) }
        ensures scenario { IsScenario self.now }
    {
        let events = self.events.copy()?;
        Ok(Scenario {
            settings: self.settings,
            events,
            next: self.next,
        })
    }
}
