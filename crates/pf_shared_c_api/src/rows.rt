//! The rows of many slots at once.
ghost use Rattle.std.specs.Prelude.{◌≡◌, ◌<◌, ◌≤◌, ◌+◌, ◌*◌, ◌^◌, Some, [], length};
ghost use Rattle.std.specs.List.{slice_index_or};
ghost use Rattle.pf_place.specs.Lent.{lent_row};
ghost use Rattle.pf_c_forms.specs.declared.status.TheConstants.{OK};
ghost use Rattle.pf_shared_c_api.specs.Reading.{TellsSnapshot};
ghost use Rattle.pf_shared_c_api.specs.Rows.{FillsRows, HasPicksFrom, HasRows};

use crate::content::Content;
use crate::handle::SnapshotHandle;
use pf_c_forms::raw_pick::RawPick;
use pf_c_forms::status::{NOT_OPEN, OK, OUT_OF_RANGE, TOO_SHORT};
use pf_desk::snapshot::Snapshot;
use pf_place::row_view::RowView;
use std::alloc::Global;

/// Tells who runs where in the slots from `from` on and below `to`: a pick for each processor of the first slot, then of the
/// next one, and so on.
///
/// # Errors
///
/// `OUT_OF_RANGE` where not all of them were stepped, or from is above to; `TOO_SHORT` where the room is shorter than as many
/// slots have processors, `NOT_OPEN` where there is no snapshot: the room is as before.
#[unsafe(no_mangle)]
pub extern "C" fn pfair_snapshot_rows(
    alloc: Global,
    snapshot: &mut SnapshotHandle,
    from: u64,
    to: u64,
    room: &mut [RawPick],
) -> u32
    ensures same { snapshot.new.value ≡ snapshot.old.value }
    ensures rows { TellsSnapshot snapshot.old.value result (λ s. FillsRows from to s result room.old room.new) }
    ensures rest { (result ≡ OK → ⊥) → room.new ≡ room.old }
{
    match snapshot.take(alloc) {
        None => NOT_OPEN,
        Some(content) => {
            let status = fill_rows_of(&content, from, to, room);
            snapshot.put(alloc, content);
            status
        }
    }
}

/// Writes the rows of these slots, where a snapshot is there.
fn fill_rows_of(content: &Content, from: u64, to: u64, room: &mut [RawPick]) -> u32
    ensures rows { TellsSnapshot (Some content.now) result (λ s. FillsRows from to s result room.old room.new) }
    ensures rest { (result ≡ OK → ⊥) → room.new ≡ room.old }
{
    match content {
        Content::Snapshot(snapshot) => fill_rows(snapshot, from, to, room),
        _ => NOT_OPEN,
    }
}

/// Writes the rows of these slots, where they were stepped and the room is long enough.
fn fill_rows(snapshot: &Snapshot, from: u64, to: u64, room: &mut [RawPick]) -> u32
    ensures rows { FillsRows from to snapshot.now result room.old room.new }
    ensures rest { (result ≡ OK → ⊥) → room.new ≡ room.old }
{
    let processors = snapshot.settings().processors();
    let stepped = snapshot.rows().len() as u64;
    if to < from {
        return OUT_OF_RANGE;
    }
    if stepped < to {
        return OUT_OF_RANGE;
    }
    let count = to - from;
    if (room.len() as u128) < places_of(count, processors) {
        return TOO_SHORT;
    }
    put_rows(snapshot, from, count, processors, room);
    OK
}

/// How many places the rows of so many slots have.
#[tactic(auto, using(crate::proofs::RowPlaces::few_places))]
fn places_of(count: u64, processors: u32) -> u128
    ensures { result ≡ count * processors }
{
    u128::from(count) * u128::from(processors)
}

/// Writes the rows of so many slots from one on.
#[tactic(auto, using(crate::proofs::RowPlaces::row_fits))]
fn put_rows(snapshot: &Snapshot, from: u64, count: u64, processors: u32, room: &mut [RawPick])
    requires stepped { from + count ≤ length snapshot.now.rows }
    requires fits { from + count < 2 ^ 64 }
    requires long { count * processors ≤ length room.old }
    ensures { HasRows processors from count snapshot.now.rows room.old room.new }
{
    let mut at = 0;
    for k in 0..count {
        put_row_of(snapshot, from + k, processors, room, at);
        at += processors as usize;
    }
}

/// Writes the row of a slot that was stepped into a room from a place on.
fn put_row_of(snapshot: &Snapshot, slot: u64, processors: u32, room: &mut [RawPick], at: usize)
    requires stepped { slot < length snapshot.now.rows }
    requires long { at + processors ≤ length room.old }
    ensures long { length room.new ≡ length room.old }
    ensures picks { HasPicksFrom at processors (slice_index_or snapshot.now.rows slot []) room.old room.new }
{
    if let Some(row) = snapshot.row(slot) {
        put_row(row, processors, room, at);
    }
}

/// Writes the picks of a row, on the processors below a number, into a room from a place on.
fn put_row(row: RowView<'_>, processors: u32, room: &mut [RawPick], at: usize)
    requires { at + processors ≤ length room.old }
    ensures long { length room.new ≡ length room.old }
    ensures picks { HasPicksFrom at processors (lent_row row.entry) room.old room.new }
{
    for k in 0..processors {
        room[at + k as usize] = RawPick::of(row.get(k));
    }
}
