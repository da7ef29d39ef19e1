ghost use Rattle.std.specs.Prelude.{◌≡◌, None, Some};
ghost use Rattle.std.specs.Arc.{arc_value};
ghost use Rattle.pf_c_forms.specs.Picks.{FillsRow};
ghost use Rattle.pf_c_forms.specs.declared.status.TheConstants.{OK};
ghost use Rattle.pf_shared_c_api.specs.Reading.{ChangesReader, IsPut, ReadsAt, TellsSnapshot};

use crate::content::Content;
use crate::handle::{ReaderHandle, SnapshotHandle};
use pf_c_forms::raw_pick::RawPick;
use pf_c_forms::row_room::fill_row;
use pf_c_forms::status::{BUSY, NO_MEMORY, NOT_OPEN, OK, OUT_OF_RANGE};
use pf_desk::snapshot::Snapshot;
use pf_shared_desk::reader::Reader;
use std::alloc::Global;
use std::sync::Arc;

/// Puts the snapshot that is shown into its handle, and drops what was there. Its version is no less than that of the one
/// that the reader read last.
///
/// # Errors
///
/// `BUSY` where there is nothing to read just now, `NO_MEMORY`, `NOT_OPEN`: the snapshot's handle is as before.
#[unsafe(no_mangle)]
pub extern "C" fn pfair_reader_read(
    alloc: Global,
    reader: &mut ReaderHandle,
    snapshot: &mut SnapshotHandle,
) -> u32
    ensures reads { ChangesReader reader.old.value result reader.new.value (ReadsAt result snapshot.old.value snapshot.new.value) }
    ensures rest { (result ≡ OK → ⊥) → snapshot.new.value ≡ snapshot.old.value }
{
    match reader.take(alloc) {
        None => NOT_OPEN,
        Some(mut content) => {
            let status = read(alloc, &mut content, snapshot);
            reader.put(alloc, content);
            status
        }
    }
}

/// Puts the same snapshot into another handle, for another thread, and drops what was there.
///
/// # Errors
///
/// `NOT_OPEN` where there is no snapshot, `NO_MEMORY`: the other handle is as before.
#[unsafe(no_mangle)]
pub extern "C" fn pfair_snapshot_again(
    alloc: Global,
    snapshot: &mut SnapshotHandle,
    again: &mut SnapshotHandle,
) -> u32
    ensures same { snapshot.new.value ≡ snapshot.old.value }
    ensures again { TellsSnapshot snapshot.old.value result (λ s. IsPut s result again.old.value again.new.value) }
    ensures rest { (result ≡ OK → ⊥) → again.new.value ≡ again.old.value }
{
    match snapshot.take(alloc) {
        None => NOT_OPEN,
        Some(content) => {
            let status = give_again(alloc, &content, again);
            snapshot.put(alloc, content);
            status
        }
    }
}

/// Closes the handle of a snapshot.
#[unsafe(no_mangle)]
pub extern "C" fn pfair_snapshot_close(alloc: Global, snapshot: &mut SnapshotHandle)
    ensures { snapshot.new.value ≡ None }
{
    drop(snapshot.take(alloc));
}

/// Tells how many entries the history had, and how many slots were stepped.
///
/// # Errors
///
/// `NOT_OPEN` where there is no snapshot: the two are as before.
#[unsafe(no_mangle)]
pub extern "C" fn pfair_snapshot_now(
    alloc: Global,
    snapshot: &mut SnapshotHandle,
    entries: &mut u64,
    slots: &mut u64,
) -> u32
    ensures same { snapshot.new.value ≡ snapshot.old.value }
    ensures now { TellsSnapshot snapshot.old.value result (λ s. (result ≡ OK) × (entries.new ≡ s.version) × (slots.new ≡ s.state.now)) }
    ensures rest { (result ≡ OK → ⊥) → (entries.new ≡ entries.old) × (slots.new ≡ slots.old) }
{
    match snapshot.take(alloc) {
        None => NOT_OPEN,
        Some(content) => {
            let status = tell_now(&content, entries, slots);
            snapshot.put(alloc, content);
            status
        }
    }
}

/// Tells who runs where in a slot stepped: a pick for each processor.
///
/// # Errors
///
/// `OUT_OF_RANGE` where the slot was not stepped, `TOO_SHORT` where the room is shorter than there are processors,
/// `NOT_OPEN` where there is no snapshot: the room is as before.
#[unsafe(no_mangle)]
pub extern "C" fn pfair_snapshot_row(
    alloc: Global,
    snapshot: &mut SnapshotHandle,
    slot: u64,
    room: &mut [RawPick],
) -> u32
    ensures same { snapshot.new.value ≡ snapshot.old.value }
    ensures row { TellsSnapshot snapshot.old.value result (λ s. FillsRow slot s.state.plan.settings.processors s.rows result room.old room.new) }
    ensures rest { (result ≡ OK → ⊥) → room.new ≡ room.old }
{
    match snapshot.take(alloc) {
        None => NOT_OPEN,
        Some(content) => {
            let status = fill_row_of(&content, slot, room);
            snapshot.put(alloc, content);
            status
        }
    }
}

/// Reads, where a reader is there.
fn read(alloc: Global, content: &mut Content, snapshot: &mut SnapshotHandle) -> u32
    ensures reads { ChangesReader (Some content.old) result (Some content.new) (ReadsAt result snapshot.old.value snapshot.new.value) }
    ensures rest { (result ≡ OK → ⊥) → snapshot.new.value ≡ snapshot.old.value }
{
    match content {
        Content::Reader(reader) => read_as(alloc, reader, snapshot),
        _ => NOT_OPEN,
    }
}

/// Reads as a reader.
fn read_as(alloc: Global, reader: &mut Reader, snapshot: &mut SnapshotHandle) -> u32
    ensures reads { ReadsAt result snapshot.old.value snapshot.new.value reader.old reader.new }
    ensures rest { (result ≡ OK → ⊥) → snapshot.new.value ≡ snapshot.old.value }
{
    match reader.read() {
        None => BUSY,
        Some(shown) => put_snapshot(alloc, shown, snapshot),
    }
}

/// Puts a snapshot into a handle.
fn put_snapshot(alloc: Global, shown: Arc<Snapshot>, snapshot: &mut SnapshotHandle) -> u32
    ensures { IsPut (arc_value shown) result snapshot.old.value snapshot.new.value }
{
    match Box::new(alloc, Content::Snapshot(shown)) {
        Ok(content) => {
            snapshot.put(alloc, content);
            OK
        }
        Err(_) => NO_MEMORY,
    }
}

/// Puts the same snapshot into another handle, where one is there.
fn give_again(alloc: Global, content: &Content, again: &mut SnapshotHandle) -> u32
    ensures again { TellsSnapshot (Some content.now) result (λ s. IsPut s result again.old.value again.new.value) }
    ensures rest { (result ≡ OK → ⊥) → again.new.value ≡ again.old.value }
{
    match content {
        Content::Snapshot(snapshot) => match Arc::try_clone(snapshot) {
            Ok(more) => put_snapshot(alloc, more, again),
            Err(_) => NO_MEMORY,
        },
        _ => NOT_OPEN,
    }
}

/// Tells the numbers of a snapshot, where one is there.
fn tell_now(content: &Content, entries: &mut u64, slots: &mut u64) -> u32
    ensures now { TellsSnapshot (Some content.now) result (λ s. (result ≡ OK) × (entries.new ≡ s.version) × (slots.new ≡ s.state.now)) }
    ensures rest { (result ≡ OK → ⊥) → (entries.new ≡ entries.old) × (slots.new ≡ slots.old) }
{
    match content {
        Content::Snapshot(snapshot) => {
            *entries = snapshot.version();
            *slots = snapshot.now();
            OK
        }
        _ => NOT_OPEN,
    }
}

/// Writes the row of a slot, where a snapshot is there.
fn fill_row_of(content: &Content, slot: u64, room: &mut [RawPick]) -> u32
    ensures row { TellsSnapshot (Some content.now) result (λ s. FillsRow slot s.state.plan.settings.processors s.rows result room.old room.new) }
    ensures rest { (result ≡ OK → ⊥) → room.new ≡ room.old }
{
    match content {
        Content::Snapshot(snapshot) => fill_row_at(snapshot, slot, room),
        _ => NOT_OPEN,
    }
}

/// Writes the row of a slot of a snapshot.
fn fill_row_at(snapshot: &Snapshot, slot: u64, room: &mut [RawPick]) -> u32
    ensures row { FillsRow slot snapshot.now.state.plan.settings.processors snapshot.now.rows result room.old room.new }
    ensures rest { (result ≡ OK → ⊥) → room.new ≡ room.old }
{
    let processors = snapshot.settings().processors();
    match snapshot.row(slot) {
        None => OUT_OF_RANGE,
        Some(row) => fill_row(row, processors, room),
    }
}
