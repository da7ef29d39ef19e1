ghost use Rattle.std.specs.Prelude.{◌≡◌, ◌⊎◌, ◌<◌, ◌≤◌, length};
ghost use Rattle.pf_place.specs.Lent.{lent_row};
ghost use Rattle.pf_c_forms.specs.declared.status.TheConstants.{OK, TOO_SHORT};
ghost use Rattle.pf_c_forms.specs.Picks.{HasPicks};

use crate::raw_pick::RawPick;
use crate::status::{OK, TOO_SHORT};
use pf_place::row_view::RowView;

/// Writes the picks of a row, on the processors below `count`, into a room that is long enough.
pub fn fill_places(row: RowView<'_>, count: u32, room: &mut [RawPick])
    requires { count ≤ length room.old }
    ensures long { length room.new ≡ length room.old }
    ensures picks { HasPicks count (lent_row row.entry) room.old room.new }
{
    for k in 0..count {
        room[k as usize] = RawPick::of(row.get(k));
    }
}

/// Writes the picks of a row, where there is room for one of each processor: the status.
pub fn fill_row(row: RowView<'_>, processors: u32, room: &mut [RawPick]) -> u32
    ensures long { length room.new ≡ length room.old }
    ensures status { (result ≡ OK) ⊎ ((result ≡ TOO_SHORT) × (length room.new < processors)) }
    ensures picks { result ≡ OK → HasPicks processors (lent_row row.entry) room.old room.new }
    ensures rest { (result ≡ OK → ⊥) → room.new ≡ room.old }
{
    if room.len() < processors as usize {
        return TOO_SHORT;
    }
    fill_places(row, processors, room);
    OK
}
