ghost use Rattle.std.specs.Prelude.{◌≡◌, OnOk, OnErr};
ghost use Rattle.pf_scenario.specs.Place.{place_of, first_of, IsPlaceable, IsMove};

use crate::event::Numbered;
use std::alloc::AllocError;
use std::collections::BTreeSet;

/// Where an event stands in the order in time: by slot, in a slot by kind, then by task, then by number.
#[derive(Clone, Copy, Debug, PartialEq, Eq, PartialOrd, Ord)]
pub struct Place {
    pub slot: u32,
    pub kind: u8,
    pub task: u16,
    pub id: u32,
}

impl Place {
    /// The place of an event.
    pub fn of(x: &Numbered) -> Self
        requires { IsPlaceable x.now }
        ensures { result ≡ place_of x.now }
    {
        Place {
            slot: x.event.slot() as u32,
            kind: x.event.kind(),
            task: x.event.task().unwrap_or(0) as u16,
            id: x.id as u32,
        }
    }

    /// The place before all events of the slot.
    pub fn first_of(slot: u32) -> Self
        ensures { result ≡ first_of slot }
    {
        Place {
            slot,
            kind: 0,
            task: 0,
            id: 0,
        }
    }
}

/// Puts the place `to` in place of `from`.
///
/// # Errors
///
/// Where memory is refused: the places are as before.
pub fn move_place(places: &mut BTreeSet<Place>, from: Place, to: Place) -> Result<(), AllocError>
    ensures ok { OnOk result (IsMove from to places.old.keys places.new.keys) }
    ensures err { OnErr result (places.new.keys ≡ places.old.keys) }
{
    if !places.insert(to)? {
        return Ok(());
    }
    places.remove(&from);
    Ok(())
}
