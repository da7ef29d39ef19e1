ghost use Rattle.std.specs.Prelude.{◌≡◌, ◌<◌, true, ◌∷◌, [], ◌++◌, length, filter, All, IfOk, OnOk, OnErr};
ghost use Rattle.std.specs.List.{list_any};
ghost use Rattle.std.specs.Option.{option_map};
ghost use Rattle.pf_scenario.specs.Event.{is_of_slot, in_run_order};
ghost use Rattle.pf_scenario.specs.Scenario.{with_number, is_held, events_without};
ghost use Rattle.pf_scenario.specs.Edit.{join_alike, leave_alike};
ghost use Rattle.pf_scenario.specs.Index.{IsNewEvent, event_at, with_event};
ghost use Rattle.pf_scenario.specs.TimeOrder.{in_time_order, is_before};

use crate::agenda::Agenda;
use crate::event::{Event, Numbered};
use crate::events::Events;
use crate::found::Found;
use std::alloc::{AllocError, Global};
use std::marker::Model;
use std::sync::Arc;

/// An agenda that copies share. A change is made in place where nobody else has it, and else on a copy of it.
#[derive(Debug)]
pub struct SharedAgenda {
    alloc: Global,

    /// No events, for as long as nothing is shared.
    empty: Agenda,
    shared: Option<Arc<Agenda>>,
}

// A call of its own, so that who drops an agenda sees none of its parts.
impl Drop for SharedAgenda {
    fn drop(self) {
        let SharedAgenda {
            alloc: _,
            empty: _,
            shared: _,
        } = self;
    }
}

impl Model for SharedAgenda {
    ghost use Rattle.std.specs.Prelude.{◌≡◌, List, []};
    ghost use Rattle.pf_scenario.specs.declared.event.Numbered.{Numbered};
    ghost use Rattle.pf_scenario.specs.Sharing.{events_shared};

    ghost Value = { List Numbered };

    ghost view = { λ a. events_shared a.shared };

    ghost invariant = { λ a. a.empty ≡ [] };
}

impl SharedAgenda {
    /// No events.
    pub fn new(alloc: Global) -> Self
        ensures { result ≡ [] }
    {
        SharedAgenda {
            alloc,
            empty: Agenda::new(alloc),
            shared: None,
        }
    }

    /// The agenda, to read.
    fn agenda(&self) -> &Agenda
        ensures { result.now ≡ self.now }
    {
        match &self.shared {
            Some(agenda) => agenda,
            None => &self.empty,
        }
    }

    /// How many events are held.
    pub fn len(&self) -> usize
        ensures { result ≡ length self.now }
    {
        self.agenda().len()
    }

    /// The event of this number, where it is held, and where its card stands.
    pub fn find(&self, id: u64) -> Option<Found>
        ensures { option_map (λ f. f.event) result ≡ event_at self.now id }
    {
        self.agenda().find(id)
    }

    /// Holds an event whose number is above all others.
    ///
    /// # Errors
    ///
    /// Where memory is refused: the events are as before.
    pub fn push(&mut self, x: Numbered) -> Result<(), AllocError>
        requires new { IsNewEvent x self.old }
        requires last { All (λ y. y.id < x.id) self.old }
        ensures ok { OnOk result (self.new ≡ self.old ++ x ∷ []) }
        ensures err { OnErr result (self.new ≡ self.old) }
    {
        match &mut self.shared {
            Some(shared) => Arc::make_mut(shared)?.push(x),
            None => {
                let mut agenda = Agenda::new(self.alloc);
                agenda.push(x)?;
                self.shared = Some(Arc::new(self.alloc, agenda)?);
                Ok(())
            }
        }
    }

    /// Takes the event of this number out, which is held and looked for at `first`.
    ///
    /// # Errors
    ///
    /// Where memory is refused: the events are as before. It takes none where nobody else has them.
    pub fn take_out(&mut self, first: usize, id: u64) -> Result<(), AllocError>
        requires { is_held self.old id ≡ true }
        ensures ok { OnOk result (self.new ≡ events_without id self.old) }
        ensures err { OnErr result (self.new ≡ self.old) }
    {
        let Some(shared) = &mut self.shared else {
            unreachable!()
        };
        Arc::make_mut(shared)?.take_out(first, id);
        Ok(())
    }

    /// Puts the event in place of the one of this number, which is held and looked for at `first`.
    ///
    /// # Errors
    ///
    /// Where memory is refused: the events are as before.
    pub fn replace(&mut self, first: usize, id: u64, event: Event) -> Result<(), AllocError>
        requires held { is_held self.old id ≡ true }
        requires new { IsNewEvent (with_number id event) (events_without id self.old) }
        ensures ok { OnOk result (self.new ≡ with_event id event self.old) }
        ensures err { OnErr result (self.new ≡ self.old) }
    {
        let Some(shared) = &mut self.shared else {
            unreachable!()
        };
        Arc::make_mut(shared)?.replace(first, id, event)
    }

    /// Whether an event of another number than this one joins the task that the event joins.
    pub fn joins_beside(&self, id: u64, event: &Event) -> bool
        ensures { result ≡ list_any (λ x. join_alike x.event event.now) (events_without id self.now) }
    {
        self.agenda().joins_beside(id, event)
    }

    /// Whether an event of another number than this one leaves the task that the event leaves.
    pub fn leaves_beside(&self, id: u64, event: &Event) -> bool
        ensures { result ≡ list_any (λ x. leave_alike x.event event.now) (events_without id self.now) }
    {
        self.agenda().leaves_beside(id, event)
    }

    /// The events of slot t, in the order of a run.
    ///
    /// # Errors
    ///
    /// Where memory is refused.
    pub fn of_slot(&self, t: u64) -> Result<Vec<Numbered>, AllocError>
        ensures { IfOk result (λ v. v.items ≡ in_run_order (filter (is_of_slot t) self.now)) }
    {
        self.agenda().of_slot(t)
    }

    /// The events of the slots below t, in time order.
    ///
    /// # Errors
    ///
    /// Where memory is refused.
    pub fn below(&self, t: u64) -> Result<Vec<Numbered>, AllocError>
        ensures { IfOk result (λ v. v.items ≡ filter (is_before t) (in_time_order self.now)) }
    {
        self.agenda().below(t)
    }

    /// The events.
    pub fn iter(&self) -> Events<'_>
        ensures { result ≡ self.now }
    {
        self.agenda().iter()
    }

    /// The same events, shared.
    ///
    /// # Errors
    ///
    /// Where memory is refused.
    pub fn copy(&self) -> Result<Self, AllocError>
        ensures { IfOk result (λ a. a ≡ self.now) }
    {
        let shared = match &self.shared {
            Some(agenda) => Some(Arc::try_clone(agenda)?),
            None => None,
        };
        Ok(SharedAgenda {
            alloc: self.alloc,
            empty: Agenda::new(self.alloc),
            shared,
        })
    }
}
