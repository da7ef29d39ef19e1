ghost use Rattle.std.specs.Prelude.{◌≡◌, Some, None, not};
ghost use Rattle.std.specs.Option.{is_some};
ghost use Rattle.pf_scenario.specs.Cards.{IsSmall, event_on, numbered_on};

use crate::event::{Event, Numbered};
use crate::packed_event::PackedEvent;

/// A card of the table of events: a number, and its event until that is struck.
#[derive(Clone, Copy, Debug)]
pub struct Card {
    id: u32,

    /// None once it is struck.
    event: Option<PackedEvent>,
}

const _: () = prove!(size_of::<Card>() == 28);

impl Card {
    /// The card of an event.
    pub fn of(x: Numbered) -> Self
        requires { IsSmall x }
        ensures { numbered_on result ≡ Some x }
    {
        Card {
            id: x.id as u32,
            event: PackedEvent::of(&x.event),
        }
    }

    /// Its number.
    pub fn id(&self) -> u64
        ensures { result ≡ self.now.id }
    {
        u64::from(self.id)
    }

    /// Its event, until that is struck.
    pub fn event(&self) -> Option<Event>
        ensures { result ≡ event_on self.now }
    {
        self.event.map(PackedEvent::event)
    }

    /// Its event with its number, until that is struck.
    pub fn numbered(&self) -> Option<Numbered>
        ensures { result ≡ numbered_on self.now }
    {
        match self.event() {
            Some(event) => Some(Numbered {
                id: self.id(),
                event,
            }),
            None => None,
        }
    }

    /// Whether its event is struck.
    pub fn is_struck(&self) -> bool
        ensures { is_some (event_on self.now) ≡ not result }
    {
        self.event.is_none()
    }

    /// Strikes its event.
    pub fn strike(&mut self)
        ensures event { event_on self.new ≡ None }
        ensures id { self.new.id ≡ self.old.id }
    {
        self.event = None;
    }
}
