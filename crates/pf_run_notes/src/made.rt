use crate::place::Place;
use pf_scenario::change::Change;
use std::alloc::{AllocError, Global};
use std::marker::Model;

/// By the number of each event the place of the record that made it as it stands: its insert, or the last alter of it.
#[derive(Drop)]
pub struct Made {
    places: Vec<Place>,
}

impl Model for Made {
    ghost use Rattle.std.specs.Prelude.{List};
    ghost use Rattle.pf_run_notes.specs.declared.place.Place.{Place};

    ghost Value = { List Place };

    ghost view = { λ m. m.places.items };
}

impl Made {
    ghost use Rattle.std.specs.Prelude.{◌≡◌, ◌-◌, [], slice_set, OnOk, OnErr};
    ghost use Rattle.pf_run_notes.specs.Made.{made_after, maker_of};

    /// No event was made.
    pub fn new(alloc: Global) -> Self
        ensures { result ≡ [] }
    {
        Made {
            places: Vec::new(alloc),
        }
    }

    /// A change was made by the record at this place: an insert gives the next number.
    ///
    /// # Errors
    ///
    /// Where memory is refused: all is as before.
    pub fn note(&mut self, place: Place, change: Change) -> Result<(), AllocError>
        ensures ok { OnOk result (self.new ≡ made_after self.old place change) }
        ensures err { OnErr result (self.new ≡ self.old) }
    {
        match change {
            Change::Insert(_) => self.places.push(place)?,
            Change::Alter(id, _) => self.alter(id, place),
            Change::Strike(_) => {}
        }
        Ok(())
    }

    /// The event of this number was made anew by the record at this place.
    fn alter(&mut self, id: u64, place: Place)
        ensures { self.new ≡ slice_set self.old (id - 1) place }
    {
        let at = id.saturating_sub(1) as usize;
        if at < self.places.len() {
            self.places[at] = place;
        }
    }

    /// The place of the record that made the event of this number as it stands.
    pub fn maker(&self, id: u64) -> Option<Place>
        ensures { result ≡ maker_of self.now id }
    {
        self.places.get(id.saturating_sub(1) as usize).copied()
    }
}
