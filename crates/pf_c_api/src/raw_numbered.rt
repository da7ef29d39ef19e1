use crate::for_c::ForC;
use pf_c_forms::raw_event::RawEvent;
use pf_scenario::event::Numbered;

/// An event with its number, as C gets it.
#[repr(C)]
#[derive(Clone, Copy)]
pub struct RawNumbered {
    /// Its number.
    pub id: u64,
    /// The event; what its kind does not have is 0.
    pub event: RawEvent,
}

impl ForC for Numbered {
    ghost use Rattle.pf_c_api.specs.Told.{raw_numbered};

    type Raw = RawNumbered;

    ghost raw = { raw_numbered };

    fn for_c(self) -> RawNumbered {
        RawNumbered {
            id: self.id,
            event: RawEvent::of(self.event),
        }
    }
}
