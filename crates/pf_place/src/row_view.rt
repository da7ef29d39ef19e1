ghost use Rattle.std.specs.Prelude.{◌≡◌, length, take};
ghost use Rattle.pf_place.specs.Occupancy.{sitter, is_seated};
ghost use Rattle.pf_place.specs.Lent.{lent_row};

use crate::place::Place;
use crate::places::Places;
use crate::small_place::SmallPlace;
use pf_order::pick::Pick;

/// A row that is lent: who runs where in one slot. A copy of the view copies no picks.
#[derive(Debug, Clone, Copy)]
pub struct RowView<'a> {
    places: Places<'a>,
}

impl<'a> RowView<'a> {
    /// The view of these places.
    pub(crate) fn of(places: &'a [Place]) -> Self
        ensures { lent_row result ≡ places.now }
    {
        RowView {
            places: Places::Plain(places),
        }
    }

    /// The view of these small places.
    pub(crate) fn of_small(places: &'a [SmallPlace]) -> Self
        ensures { lent_row result ≡ places.now }
    {
        RowView {
            places: Places::Small(places),
        }
    }

    /// How many processors m the row has, busy or idle.
    pub fn processors(self) -> usize
        ensures { result ≡ length (lent_row self.entry) }
    {
        match self.places {
            Places::Plain(places) => places.len(),
            Places::Small(places) => places.len(),
        }
    }

    /// The pick that runs on the processor; none where it is idle or the row has no such processor.
    pub fn get(self, processor: u32) -> Option<Pick>
        ensures { result ≡ sitter (lent_row self.entry) processor }
    {
        self.sitter(processor as usize)
    }

    /// Who sits on the place; nobody where it is idle or the row has no such place.
    pub(crate) fn sitter(self, place: usize) -> Option<Pick>
        ensures { result ≡ sitter (lent_row self.entry) place }
    {
        match self.places {
            Places::Plain(places) => places.get(place)?.pick(),
            Places::Small(places) => places.get(place)?.pick(),
        }
    }

    /// The row of the processors below `count`.
    pub(crate) fn first(self, count: usize) -> Self
        ensures { lent_row result ≡ take count (lent_row self.entry) }
    {
        match self.places {
            Places::Plain(places) => RowView::of(&places[..count.min(places.len())]),
            Places::Small(places) => RowView::of_small(&places[..count.min(places.len())]),
        }
    }

    /// Whether the task runs on one of the processors.
    pub(crate) fn seats(self, task: u32) -> bool
        ensures { result ≡ is_seated (lent_row self.entry) task }
    {
        match self.places {
            Places::Plain(places) => places
                .iter()
                .any(|place| place.pick().map_or(false, |sat| sat.task == task)),
            Places::Small(places) => places
                .iter()
                .any(|place| place.pick().map_or(false, |sat| sat.task == task)),
        }
    }

    /// Puts the row on these places, of which there must be as many.
    pub(crate) fn copy_to(self, places: &mut [Place])
        requires { length places.old ≡ length (lent_row self) }
        ensures { places.new ≡ lent_row self.entry }
    {
        match self.places {
            Places::Plain(row) => places.copy_from_slice(row),
            Places::Small(row) => unpack(row, places),
        }
    }
}

/// Puts the small places on these, of which there must be as many.
fn unpack(row: &[SmallPlace], places: &mut [Place])
    requires { length places.old ≡ length row.now }
    ensures { places.new ≡ row.now }
{
    for k in 0..row.len() {
        places[k] = row[k].place();
    }
}
