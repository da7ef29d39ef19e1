ghost use Rattle.std.specs.Prelude.{◌≡◌, ◌+◌, ◌*◌, ◌<◌, ◌≤◌, length, All, IfNone, MatchOption, slice_index_or, sum_by, vec_len};
ghost use Rattle.std.specs.Vec.{vec_capacity};
ghost use Rattle.std.specs.FinSet as set;
ghost use Rattle.std.specs.List.Sorted.{IsNonDecreasingBy};
ghost use Rattle.pf_order.specs.Counts.{Compares};
ghost use Rattle.pf_heap.specs.Keys.{list_of};
ghost use Rattle.pf_heap.specs.Digits.{digits};
ghost use Rattle.pf_calendar.specs.declared.waiting_list.WaitingList.{WaitingList as EntryView};
ghost use Rattle.pf_calendar.specs.Steps.{HasNoneFor, RemovesAt, Discounts};

use crate::names::place_of;
use crate::waiting_list::WaitingList;
use pf_heap::arena::{Arena, HeapId};
use pf_order::key::Key;
use pf_order::meter::Meter;

/// Takes the task's key out of the list for the slot: the place of the list's entry, and the key.
pub(crate) fn remove_waiting(
    heaps: &mut Arena,
    meter: &mut Meter,
    entries: &[WaitingList],
    slot: u64,
    task: u32,
) -> Option<(usize, Key)>
    requires rise { IsNonDecreasingBy (λ e. e.slot) entries.now }
    requires heaps { All (λ e. e.heap < length heaps.old.lists) entries.now }
    ensures removed { MatchOption result ((heaps.new ≡ heaps.old) × HasNoneFor heaps.old entries.now slot task)
        (λ r. RemovesAt heaps.old heaps.new entries.now task r.0 r.1) }
    ensures unfound { IfNone result (meter.new ≡ meter.old) }
    ensures comparisons { Compares (2 * digits (sum_by (λ e. set.len (list_of heaps.old e.heap)) entries.now)) meter.old meter.new }
{
    let at = place_of(entries, slot);
    if at >= entries.len() || entries[at].slot != slot {
        return None;
    }
    let key = heaps.remove(meter, entries[at].heap, task)?;
    Some((at, key))
}

/// Counts one key less at the entry at this place. Where none is left the entry goes, and its heap is unused.
pub(crate) fn discount(entries: &mut Vec<WaitingList>, unused: &mut Vec<HeapId>, at: usize)
    requires within { at < vec_len entries.old }
    requires some { (d : EntryView) → 1 ≤ (slice_index_or entries.old.items at d).count }
    requires room { vec_len unused.old < vec_capacity unused.old }
    ensures discounted { Discounts entries.old.items entries.new.items unused.old.items unused.new.items at }
    ensures capacity { vec_capacity entries.new ≡ vec_capacity entries.old }
    ensures unused_capacity { vec_capacity unused.new ≡ vec_capacity unused.old }
{
    if entries[at].count == 1 {
        let entry = entries.remove(at);
        unused.push_reserved(entry.heap);
    } else {
        entries[at].count -= 1;
    }
}
