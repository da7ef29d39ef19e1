ghost use Rattle.std.specs.Prelude.{◌≡◌, ◌<◌, ◌≤◌, true, [], ◌∷◌, ◌++◌, length, filter, All, IfOk, OnOk, OnErr};
ghost use Rattle.std.specs.List.{list_any};
ghost use Rattle.std.specs.Option.{option_map};
ghost use Rattle.pf_scenario.specs.declared.settings.TheConstants.{WIDE_HORIZON};
ghost use Rattle.pf_scenario.specs.Event.{slot_of, is_of_slot, in_run_order};
ghost use Rattle.pf_scenario.specs.Scenario.{with_number, is_held, events_without};
ghost use Rattle.pf_scenario.specs.Edit.{join_alike, leave_alike};
ghost use Rattle.pf_scenario.specs.Index.{IsNewEvent, event_at, with_event};
ghost use Rattle.pf_scenario.specs.TimeOrder.{in_time_order, is_before, is_between};

use crate::by_number::ByNumber;
use crate::event::{Event, Numbered};
use crate::events::Events;
use crate::found::Found;
use crate::place::{Place, move_place};
use crate::settings::WIDE_HORIZON;
use crate::tables::{grow_for, note, notes_other};
use std::alloc::{AllocError, Global};
use std::collections::BTreeSet;
use std::marker::Model;

/// The events held, by number. It knows their order in time, and by task which event joins and which leaves, so that
/// each question and each change costs the logarithm of their number.
#[derive(Debug)]
pub struct Agenda {
    events: ByNumber,
    order: BTreeSet<Place>,
    joins: Vec<u64>,
    leaves: Vec<u64>,
}

// A call of its own, so that who drops an agenda sees none of its parts.
impl Drop for Agenda {
    fn drop(self) {
        let Agenda {
            events: _,
            order: _,
            joins: _,
            leaves: _,
        } = self;
    }
}

impl Model for Agenda {
    ghost use Rattle.std.specs.Prelude.{List};
    ghost use Rattle.pf_scenario.specs.declared.event.Numbered.{Numbered};
    ghost use Rattle.pf_scenario.specs.Index.{IsIndexed};

    ghost Value = { List Numbered };

    ghost view = { λ a. a.events };

    ghost invariant = { λ a. IsIndexed a.events a.order.keys a.joins.items a.leaves.items };
}

impl Agenda {
    /// No events.
    pub fn new(alloc: Global) -> Self
        ensures { result ≡ [] }
    {
        Agenda {
            events: ByNumber::new(alloc),
            order: BTreeSet::new(alloc),
            joins: Vec::new(alloc),
            leaves: Vec::new(alloc),
        }
    }

    /// How many events are held.
    pub fn len(&self) -> usize
        ensures { result ≡ length self.now }
    {
        self.events.len()
    }

    /// The event of this number, where it is held, and where its card stands.
    pub fn find(&self, id: u64) -> Option<Found>
        ensures { option_map (λ f. f.event) result ≡ event_at self.now id }
    {
        self.events.find(self.events.guess(id), id)
    }

    /// Holds an event whose number is above all others.
    ///
    /// # Errors
    ///
    /// Where memory is refused: the events are as before.
    pub fn push(&mut self, x: Numbered) -> Result<(), AllocError>
        requires new { IsNewEvent x self.old }
        requires last { All (λ y. y.id < x.id) self.old }
        ensures ok { OnOk result (self.new ≡ self.old ++ x ∷ []) }
        ensures err { OnErr result (self.new ≡ self.old) }
    {
        let place = Place::of(&x);
        grow_for(&mut self.joins, &mut self.leaves, &x.event)?;
        self.order.insert(place)?;
        match self.events.push(x) {
            Ok(()) => {
                note(&mut self.joins, &mut self.leaves, &x.event, x.id);
                Ok(())
            }
            Err(refused) => {
                self.order.remove(&place);
                Err(refused)
            }
        }
    }

    /// Takes the event of this number out, which is held and looked for at `first`.
    pub fn take_out(&mut self, first: usize, id: u64)
        requires { is_held self.old id ≡ true }
        ensures { self.new ≡ events_without id self.old }
    {
        let Some(found) = self.events.find(first, id) else {
            unreachable!()
        };
        let event = found.event;
        self.order.remove(&Place::of(&Numbered { id, event }));
        self.events.take_out(found.at, id);
        note(&mut self.joins, &mut self.leaves, &event, 0);
    }

    /// Puts the event in place of the one of this number, which is held and looked for at `first`.
    ///
    /// # Errors
    ///
    /// Where memory is refused: the events are as before.
    pub fn replace(&mut self, first: usize, id: u64, event: Event) -> Result<(), AllocError>
        requires held { is_held self.old id ≡ true }
        requires new { IsNewEvent (with_number id event) (events_without id self.old) }
        ensures ok { OnOk result (self.new ≡ with_event id event self.old) }
        ensures err { OnErr result (self.new ≡ self.old) }
    {
        let Some(found) = self.events.find(first, id) else {
            unreachable!()
        };
        let was = found.event;
        grow_for(&mut self.joins, &mut self.leaves, &event)?;
        let from = Place::of(&Numbered { id, event: was });
        let to = Place::of(&Numbered { id, event });
        move_place(&mut self.order, from, to)?;
        self.events.set(found.at, id, event);
        note(&mut self.joins, &mut self.leaves, &was, 0);
        note(&mut self.joins, &mut self.leaves, &event, id);
        Ok(())
    }

    /// Whether an event of another number than this one joins the task that the event joins.
    pub fn joins_beside(&self, id: u64, event: &Event) -> bool
        ensures { result ≡ list_any (λ x. join_alike x.event event.now) (events_without id self.now) }
    {
        match *event {
            Event::Join { task, .. } => notes_other(&self.joins, task, id),
            Event::Leave { .. } | Event::Delay { .. } | Event::Limit { .. } => false,
        }
    }

    /// Whether an event of another number than this one leaves the task that the event leaves.
    pub fn leaves_beside(&self, id: u64, event: &Event) -> bool
        ensures { result ≡ list_any (λ x. leave_alike x.event event.now) (events_without id self.now) }
    {
        match *event {
            Event::Leave { task, .. } => notes_other(&self.leaves, task, id),
            Event::Join { .. } | Event::Delay { .. } | Event::Limit { .. } => false,
        }
    }

    /// Whether each event is of a slot before t, so that t has none.
    fn is_behind(&self, t: u64) -> bool
        ensures { result ≡ true → in_run_order (filter (is_of_slot t) self.now) ≡ [] }
    {
        match self.order.last() {
            Some(last) => u64::from(last.slot) < t,
            None => true,
        }
    }

    /// The events of the slots from `from` up to but not including `to`, in time order.
    fn of_slots(&self, from: u32, to: u32) -> Result<Vec<Numbered>, AllocError>
        requires { from ≤ to }
        ensures value { IfOk result (λ v. v.items ≡ filter (is_between from to) (in_time_order self.now)) }
        ensures near { All (λ x. slot_of x.event < WIDE_HORIZON) self.now }
    {
        let mut events = Vec::new(*self.joins.allocator());
        for place in self.order.range(Place::first_of(from)..Place::first_of(to)) {
            let id = u64::from(place.id);
            let Some(found) = self.events.find(self.events.guess(id), id) else {
                unreachable!()
            };
            events.push(Numbered {
                id,
                event: found.event,
            })?;
        }
        Ok(events)
    }

    /// The events of slot t, in the order of a run.
    ///
    /// # Errors
    ///
    /// Where memory is refused.
    pub fn of_slot(&self, t: u64) -> Result<Vec<Numbered>, AllocError>
        ensures { IfOk result (λ v. v.items ≡ in_run_order (filter (is_of_slot t) self.now)) }
    {
        if t >= WIDE_HORIZON {
            return Ok(Vec::new(*self.joins.allocator()));
        }
        if self.is_behind(t) {
            return Ok(Vec::new(*self.joins.allocator()));
        }
        let slot = t as u32;
        self.of_slots(slot, slot + 1)
    }

    /// The events of the slots below t, in time order.
    ///
    /// # Errors
    ///
    /// Where memory is refused.
    pub fn below(&self, t: u64) -> Result<Vec<Numbered>, AllocError>
        ensures { IfOk result (λ v. v.items ≡ filter (is_before t) (in_time_order self.now)) }
    {
        self.of_slots(0, t.min(WIDE_HORIZON) as u32)
    }

    /// The events.
    pub fn iter(&self) -> Events<'_>
        ensures { result ≡ self.now }
    {
        self.events.iter()
    }
}

impl Clone for Agenda {
    ghost is_clone = { λ a copy. copy ≡ a };

    fn clone(&self) -> Result<Self, AllocError> {
        let joins = self.joins.clone()?;
        let leaves = self.leaves.clone()?;
        let events = self.events.clone()?;
        let order = self.order.clone()?;
        Ok(Agenda {
            events,
            order,
            joins,
            leaves,
        })
    }
}
