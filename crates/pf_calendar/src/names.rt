ghost use Rattle.std.specs.Prelude.{◌≡◌, ℕ, ◌+◌, ◌<◌, ◌≤◌, ◌^◌, length, OnOk, vec_len};
ghost use Rattle.std.specs.Vec.{vec_capacity};
ghost use Rattle.std.specs.List.Sorted.{IsNonDecreasingBy};
ghost use Rattle.pf_calendar.specs.Steps.{AddsHeaps, SlotsRise, IsSlotPlace, Opens};

use crate::waiting_list::WaitingList;
use pf_heap::arena::{Arena, HeapId};
use std::alloc::AllocError;

/// Adds `more` empty heaps and notes their names: where memory is refused, only some of them.
pub(crate) fn add_heaps(
    heaps: &mut Arena,
    names: &mut Vec<HeapId>,
    more: usize,
) -> Result<(), AllocError>
    requires room { vec_len names.old + more ≤ vec_capacity names.old }
    requires few { length heaps.old.lists + more < 2 ^ 32 }
    ensures added { (n : ℕ) × (n ≤ more) × AddsHeaps heaps.old heaps.new names.old.items names.new.items n × OnOk result (n ≡ more) }
    ensures capacity { vec_capacity names.new ≡ vec_capacity names.old }
{
    for _i in 0..more {
        let heap = heaps.new_heap()?;
        names.push_reserved(heap);
    }
    Ok(())
}

/// How many entries are for slots before this one.
pub(crate) fn place_of(entries: &[WaitingList], slot: u64) -> usize
    requires { IsNonDecreasingBy (λ e. e.slot) entries.now }
    ensures { IsSlotPlace entries.now slot result }
{
    entries.partition_point(|entry| entry.slot < slot)
}

/// The same, found at once where no slot from the first entry's up to this one is without an entry.
fn place_near(entries: &[WaitingList], slot: u64) -> usize
    requires rise { IsNonDecreasingBy (λ e. e.slot) entries.now }
    requires apart { SlotsRise entries.now }
    ensures { IsSlotPlace entries.now slot result }
{
    if entries.is_empty() {
        return 0;
    }
    let at = slot.saturating_sub(entries[0].slot) as usize;
    if at < entries.len() && entries[at].slot == slot {
        return at;
    }
    place_of(entries, slot)
}

/// The place of the slot's entry. Where it has none it gets one, which counts no key and has the last unused name.
pub(crate) fn open(entries: &mut Vec<WaitingList>, unused: &mut Vec<HeapId>, slot: u64) -> usize
    requires rise { IsNonDecreasingBy (λ e. e.slot) entries.old.items }
    requires apart { SlotsRise entries.old.items }
    requires room { vec_len entries.old < vec_capacity entries.old }
    requires some { 1 ≤ vec_len unused.old }
    ensures opened { Opens entries.old.items entries.new.items unused.old.items unused.new.items slot result }
    ensures capacity { vec_capacity entries.new ≡ vec_capacity entries.old }
    ensures unused_capacity { vec_capacity unused.new ≡ vec_capacity unused.old }
{
    let at = place_near(entries, slot);
    if at < entries.len() && entries[at].slot == slot {
        return at;
    }
    let Some(heap) = unused.pop() else {
        unreachable!()
    };
    let entry = WaitingList {
        slot,
        heap,
        count: 0,
    };
    match entries.insert(at, entry) {
        Ok(()) => at,
        Err(_) => unreachable!(),
    }
}
