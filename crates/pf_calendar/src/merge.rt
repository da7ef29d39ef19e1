ghost use Rattle.std.specs.Prelude.{◌≡◌, ℕ, ◌+◌, ◌*◌, ◌<◌, ◌≤◌, All, ◌++◌, length, sum_by, vec_len};
ghost use Rattle.std.specs.Vec.{vec_capacity};
ghost use Rattle.std.specs.FinSet as set;
ghost use Rattle.pf_order.specs.Counts.{Compares};
ghost use Rattle.pf_heap.specs.Keys.{list_of};
ghost use Rattle.pf_heap.specs.Digits.{digits};
ghost use Rattle.pf_calendar.specs.Invariant.{names_of, name_count};
ghost use Rattle.pf_calendar.specs.Steps.{MergesAll};

use crate::waiting_list::WaitingList;
use pf_heap::arena::{Arena, HeapId};
use pf_order::meter::Meter;

/// Merges the list of each entry into the main heap, and puts the names of the emptied heaps aside.
pub(crate) fn merge_all(
    heaps: &mut Arena,
    meter: &mut Meter,
    entries: &[WaitingList],
    aside: &mut Vec<HeapId>,
)
    requires heaps { All (λ e. e.heap < length heaps.old.lists) entries.now }
    requires once { (h : ℕ) → name_count h (names_of entries.now) ≤ 1 }
    requires room { vec_len aside.old + length entries.now ≤ vec_capacity aside.old }
    ensures merged { MergesAll heaps.old heaps.new (names_of entries.now) }
    ensures aside { aside.new.items ≡ aside.old.items ++ names_of entries.now }
    ensures capacity { vec_capacity aside.new ≡ vec_capacity aside.old }
    ensures comparisons { Compares
        (length entries.now * digits (set.len heaps.old.main + sum_by (λ e. set.len (list_of heaps.old e.heap)) entries.now))
        meter.old meter.new }
{
    for entry in entries {
        heaps.meld_main(meter, entry.heap);
        aside.push_reserved(entry.heap);
    }
}
