ghost use Rattle.std.specs.Prelude.{◌≡◌};
ghost use Rattle.pf_c_forms.specs.Asked.{change_in};

use crate::raw_event::RawEvent;
use pf_scenario::change::Change;

/// The kind of an insert.
pub const INSERT: u64 = 0;

/// The kind of an alter.
pub const ALTER: u64 = 1;

/// The kind of a strike.
pub const STRIKE: u64 = 2;

/// A change as C gives it. Only what its kind has is read.
#[repr(C)]
#[derive(Clone, Copy)]
pub struct RawChange {
    /// `INSERT`, `ALTER` or `STRIKE`.
    pub kind: u64,
    /// The number of the event that is altered or struck.
    pub id: u64,
    /// The event that is inserted or takes the other's place.
    pub event: RawEvent,
}

impl RawChange {
    /// The change that is meant; none where its kind, or that of its event, is unknown.
    pub fn change(self) -> Option<Change>
        ensures { result ≡ change_in self }
    {
        match self.kind {
            INSERT => match self.event.event() {
                Some(event) => Some(Change::Insert(event)),
                None => None,
            },
            ALTER => match self.event.event() {
                Some(event) => Some(Change::Alter(self.id, event)),
                None => None,
            },
            STRIKE => Some(Change::Strike(self.id)),
            _ => None,
        }
    }
}
