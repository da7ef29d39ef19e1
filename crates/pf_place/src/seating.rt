ghost use Rattle.std.specs.Prelude.{◌≡◌, ◌≤◌, ◌<◌, [], ◌∷◌, map, length, false};
ghost use Rattle.std.specs.List.{All, position, position_or_len, range_with_len, slice_get};
ghost use Rattle.std.specs.Option.{is_none, option_and_then};
ghost use Rattle.pf_place.specs.Lent.{lent_row};
ghost use Rattle.pf_place.specs.Index.{number_of, with_mark, AreMarked};
ghost use Rattle.pf_place.specs.Occupancy.{next_pick, sitter, is_seated, others, row_of};
ghost use Rattle.pf_place.specs.Seating.{seats_filled_with};

use crate::pick_index::{BUCKETS, PickIndex, note_starts};
use crate::place::Place;
use crate::row_view::RowView;
use pf_order::pick::Pick;

/// How many picks can be marked: more than a slot has. Of those after, the tasks are looked for among the places.
const MARKS: usize = 256;

/// Where the pick stands of whoever sat on place q of the earlier ones and runs again.
fn keeper(index: &PickIndex<'_>, earlier: RowView<'_>, q: usize) -> Option<usize>
    ensures { result ≡ option_and_then (λ sat. number_of index.now sat.task) (sitter (lent_row earlier.entry) q) }
{
    match earlier.sitter(q) {
        Some(sat) => index.number(sat.task),
        None => None,
    }
}

/// The place where the k-th pick runs; the idle one where there is none.
fn place_of(picks: &[Pick], k: Option<usize>) -> Place
    requires { All (λ pick. 1 ≤ pick.task) picks.now }
    ensures { result ≡ option_and_then (slice_get picks.now) k }
{
    match k {
        Some(k) if k < picks.len() => Place::of(picks[k]),
        _ => Place::idle(),
    }
}

/// Marks the k-th pick, where it can be marked.
fn mark(marks: &mut [bool], k: Option<usize>)
    ensures { marks.new ≡ with_mark marks.old k }
{
    match k {
        Some(k) if k < marks.len() => marks[k] = true,
        _ => {}
    }
}

/// Leaves on each place who sat there on the earlier ones and runs again, and nobody on any other. Marks the picks whose
/// task sat on an earlier place: of a task's picks the first.
fn keep(places: &mut [Place], marks: &mut [bool], earlier: RowView<'_>, index: &PickIndex<'_>)
    requires numbered { All (λ pick. 1 ≤ pick.task) index.now }
    requires long { length (lent_row earlier) ≤ length places.old }
    requires unmarked { All (λ mark. mark ≡ false) marks.old }
    ensures kept { places.new ≡ map (λ q. next_pick index.now (sitter (lent_row earlier.entry) q)) (range_with_len 0 (length places.old)) }
    ensures marked { AreMarked marks.new (lent_row earlier.entry) index.now }
{
    let picks = index.picks();
    for q in 0..places.len() {
        let k = keeper(index, earlier, q);
        places[q] = place_of(picks, k);
        mark(marks, k);
    }
}

/// Whether the task sat on one of the earlier places: its first pick's mark tells it, where that can be marked.
fn sat(marks: &[bool], earlier: RowView<'_>, index: &PickIndex<'_>, task: u32) -> bool
    requires { AreMarked marks.now (lent_row earlier) index.now }
    ensures { result ≡ is_seated (lent_row earlier.entry) task }
{
    match index.number(task) {
        Some(k) if k < marks.len() => marks[k],
        _ => earlier.seats(task),
    }
}

/// The lowest free place.
fn lowest_free(places: &[Place]) -> Option<usize>
    ensures { result ≡ position is_none places.now }
{
    places.iter().position(|place| place.is_idle())
}

/// The lowest free place, where no place before `from` is free; how many places there are where none is.
fn free_from(places: &[Place], from: usize) -> usize
    requires within { from ≤ length places.now }
    requires taken { from ≤ position_or_len is_none places.now }
    ensures { result ≡ position_or_len is_none places.now }
{
    match lowest_free(&places[from..]) {
        Some(behind) => from + behind,
        None => places.len(),
    }
}

/// Seats the pick on the lowest free place, and returns the lowest then.
fn seat_lowest(places: &mut [Place], free: usize, pick: Pick) -> usize
    requires numbered { 1 ≤ pick.task }
    requires lowest { free ≡ position_or_len is_none places.old }
    requires some { free < length places.old }
    ensures seated { places.new ≡ seats_filled_with places.old (pick ∷ []) }
    ensures next { result ≡ position_or_len is_none places.new }
{
    places[free] = Place::of(pick);
    free_from(places, free + 1)
}

/// Seats the picks whose task sat on none of the earlier places, in order, on the free ones of these places, from the
/// lowest.
fn seat_others(places: &mut [Place], marks: &[bool], earlier: RowView<'_>, index: &PickIndex<'_>)
    requires numbered { All (λ pick. 1 ≤ pick.task) index.now }
    requires marked { AreMarked marks.now (lent_row earlier) index.now }
    ensures { places.new ≡ seats_filled_with places.old (others (lent_row earlier.entry) index.now) }
{
    let picks = index.picks();
    let mut free = free_from(places, 0);
    for pick in picks {
        if free < places.len() && !sat(marks, earlier, index, pick.task) {
            free = seat_lowest(places, free, *pick);
        }
    }
}

/// Makes these places the row of a slot in which `picks` run on the places below `count`, where `before` is the row of
/// the slot before. Where `before` is shorter, the places that it lacks were idle.
pub(crate) fn seat(places: &mut [Place], count: usize, before: RowView<'_>, picks: &[Pick])
    requires in_use { count ≤ length places.old }
    requires numbered { All (λ pick. 1 ≤ pick.task) picks.now }
    ensures { places.new ≡ row_of (length places.old) count (lent_row before.entry) picks.now }
{
    let mut starts = [0; BUCKETS];
    note_starts(&mut starts, picks);
    let index = PickIndex::of(picks, &starts);
    let earlier = before.first(count);
    let mut marks = [false; MARKS];
    keep(places, &mut marks, earlier, &index);
    seat_others(&mut places[..count], &marks, earlier, &index);
}
