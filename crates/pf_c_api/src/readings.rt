ghost use Rattle.std.specs.Prelude.{◌≡◌, IfOk};
ghost use Rattle.pf_run.specs.Computed.{run_of};
ghost use Rattle.pf_tally.specs.Figures.{figures_of};
ghost use Rattle.pf_c_forms.specs.Picks.{FillsRow};
ghost use Rattle.pf_c_forms.specs.declared.status.TheConstants.{OK};
ghost use Rattle.pf_c_api.specs.Told.{FillsRoom, LeavesRest, MayFillRoom, Tells, denials_now, events_now, figures_now, lags_now, misses_now, raw_settings};

use crate::handle::Handle;
use crate::raw_denial::RawDenial;
use crate::raw_figures::RawFigures;
use crate::raw_lag::RawLag;
use crate::raw_miss::RawMiss;
use crate::raw_numbered::RawNumbered;
use crate::raw_settings::RawSettings;
use crate::room::fill;
use pf_c_forms::raw_pick::RawPick;
use pf_c_forms::row_room::fill_row;
use pf_c_forms::status::{NO_MEMORY, NOT_OPEN, OK, OUT_OF_RANGE};
use pf_desk::desk::Desk;
use pf_scenario::event::Numbered;
use pf_tally::figures::Figures;
use std::alloc::{AllocError, Global};

/// Tells how many slots were stepped.
///
/// # Errors
///
/// `NOT_OPEN`: `now` is as before.
#[unsafe(no_mangle)]
pub extern "C" fn pfair_now(alloc: Global, desk: &mut Handle, now: &mut u64) -> u32
    ensures same { desk.new.value ≡ desk.old.value }
    ensures now { Tells desk.old.value result (λ d. (result ≡ OK) × (now.new ≡ d.state.now)) }
    ensures rest { (result ≡ OK → ⊥) → now.new ≡ now.old }
{
    match desk.take(alloc) {
        None => NOT_OPEN,
        Some(held) => {
            *now = held.desk.now();
            desk.put(alloc, held);
            OK
        }
    }
}

/// Tells what the desk was opened with.
///
/// # Errors
///
/// `NOT_OPEN`: `settings` is as before.
#[unsafe(no_mangle)]
pub extern "C" fn pfair_settings(
    alloc: Global,
    desk: &mut Handle,
    settings: &mut RawSettings,
) -> u32
    ensures same { desk.new.value ≡ desk.old.value }
    ensures settings { Tells desk.old.value result (λ d. (result ≡ OK) × (settings.new ≡ raw_settings d.state.plan.settings d.every)) }
    ensures rest { (result ≡ OK → ⊥) → settings.new ≡ settings.old }
{
    match desk.take(alloc) {
        None => NOT_OPEN,
        Some(held) => {
            *settings = RawSettings::of(held.desk.scenario().settings(), held.desk.distance());
            desk.put(alloc, held);
            OK
        }
    }
}

/// Tells who runs where in a slot below now: a pick for each processor.
///
/// # Errors
///
/// `OUT_OF_RANGE` where the slot was not stepped, `TOO_SHORT` where the room is shorter than there are processors,
/// `NOT_OPEN`: the room is as before.
#[unsafe(no_mangle)]
pub extern "C" fn pfair_row(
    alloc: Global,
    desk: &mut Handle,
    slot: u64,
    room: &mut [RawPick],
) -> u32
    ensures same { desk.new.value ≡ desk.old.value }
    ensures row { Tells desk.old.value result (λ d. FillsRow slot d.state.plan.settings.processors d.rows result room.old room.new) }
    ensures rest { (result ≡ OK → ⊥) → room.new ≡ room.old }
{
    match desk.take(alloc) {
        None => NOT_OPEN,
        Some(held) => {
            let status = fill_row_at(&held.desk, slot, room);
            desk.put(alloc, held);
            status
        }
    }
}

/// Tells how far each task inside is from its fair share, by task number. `count` is how many there are, where the room is
/// too short too.
///
/// # Errors
///
/// `TOO_SHORT`, `NO_MEMORY`, `NOT_OPEN`: the room is as before.
#[unsafe(no_mangle)]
pub extern "C" fn pfair_lags(
    alloc: Global,
    desk: &mut Handle,
    room: &mut [RawLag],
    count: &mut usize,
) -> u32
    ensures same { desk.new.value ≡ desk.old.value }
    ensures lags { Tells desk.old.value result (λ d. MayFillRoom (lags_now d) result count.new room.old room.new) }
    ensures rest { LeavesRest result count.old count.new room.old room.new }
{
    match desk.take(alloc) {
        None => NOT_OPEN,
        Some(held) => {
            let status = fill_lags(&held.desk, room, count);
            desk.put(alloc, held);
            status
        }
    }
}

/// Tells the missed windows, by deadline, then by task number. `count` is how many there are, where the room is too short
/// too.
///
/// # Errors
///
/// `TOO_SHORT`, `NO_MEMORY`, `NOT_OPEN`: the room is as before.
#[unsafe(no_mangle)]
pub extern "C" fn pfair_misses(
    alloc: Global,
    desk: &mut Handle,
    room: &mut [RawMiss],
    count: &mut usize,
) -> u32
    ensures same { desk.new.value ≡ desk.old.value }
    ensures misses { Tells desk.old.value result (λ d. MayFillRoom (misses_now d) result count.new room.old room.new) }
    ensures rest { LeavesRest result count.old count.new room.old room.new }
{
    match desk.take(alloc) {
        None => NOT_OPEN,
        Some(held) => {
            let status = fill_misses(&held.desk, room, count);
            desk.put(alloc, held);
            status
        }
    }
}

/// Tells the denials of the slots below now, in run order. `count` is how many there are, where the room is too short too.
///
/// # Errors
///
/// `TOO_SHORT`, `NOT_OPEN`: the room is as before.
#[unsafe(no_mangle)]
pub extern "C" fn pfair_denials(
    alloc: Global,
    desk: &mut Handle,
    room: &mut [RawDenial],
    count: &mut usize,
) -> u32
    ensures same { desk.new.value ≡ desk.old.value }
    ensures denials { Tells desk.old.value result (λ d. FillsRoom (denials_now d) result count.new room.old room.new) }
    ensures rest { LeavesRest result count.old count.new room.old room.new }
{
    match desk.take(alloc) {
        None => NOT_OPEN,
        Some(held) => {
            let status = fill(held.desk.denials(), room, count);
            desk.put(alloc, held);
            status
        }
    }
}

/// Tells the figures of each task admitted in a slot below now, by task number. `count` is how many there are, where the
/// room is too short too.
///
/// # Errors
///
/// `TOO_SHORT`, `NO_MEMORY`, `NOT_OPEN`: the room is as before.
#[unsafe(no_mangle)]
pub extern "C" fn pfair_figures(
    alloc: Global,
    desk: &mut Handle,
    room: &mut [RawFigures],
    count: &mut usize,
) -> u32
    ensures same { desk.new.value ≡ desk.old.value }
    ensures figures { Tells desk.old.value result (λ d. MayFillRoom (figures_now d) result count.new room.old room.new) }
    ensures rest { LeavesRest result count.old count.new room.old room.new }
{
    match desk.take(alloc) {
        None => NOT_OPEN,
        Some(held) => {
            let status = fill_figures(&held.desk, room, count);
            desk.put(alloc, held);
            status
        }
    }
}

/// Tells the events held, by number. `count` is how many there are, where the room is too short too.
///
/// # Errors
///
/// `TOO_SHORT`, `NO_MEMORY`, `NOT_OPEN`: the room is as before.
#[unsafe(no_mangle)]
pub extern "C" fn pfair_events(
    alloc: Global,
    desk: &mut Handle,
    room: &mut [RawNumbered],
    count: &mut usize,
) -> u32
    ensures same { desk.new.value ≡ desk.old.value }
    ensures events { Tells desk.old.value result (λ d. MayFillRoom (events_now d) result count.new room.old room.new) }
    ensures rest { LeavesRest result count.old count.new room.old room.new }
{
    match desk.take(alloc) {
        None => NOT_OPEN,
        Some(held) => {
            let status = fill_events(alloc, &held.desk, room, count);
            desk.put(alloc, held);
            status
        }
    }
}

/// Writes the row of a slot.
fn fill_row_at(desk: &Desk, slot: u64, room: &mut [RawPick]) -> u32
    ensures row { FillsRow slot desk.now.state.plan.settings.processors desk.now.rows result room.old room.new }
    ensures rest { (result ≡ OK → ⊥) → room.new ≡ room.old }
{
    match desk.schedule().get(slot) {
        None => OUT_OF_RANGE,
        Some(row) => fill_row(row, desk.scenario().settings().processors(), room),
    }
}

/// Writes the lags.
fn fill_lags(desk: &Desk, room: &mut [RawLag], count: &mut usize) -> u32
    ensures lags { MayFillRoom (lags_now desk.now) result count.new room.old room.new }
    ensures rest { LeavesRest result count.old count.new room.old room.new }
{
    match desk.lags() {
        Ok(lags) => fill(&lags, room, count),
        Err(_) => NO_MEMORY,
    }
}

/// Writes the missed windows.
fn fill_misses(desk: &Desk, room: &mut [RawMiss], count: &mut usize) -> u32
    ensures misses { MayFillRoom (misses_now desk.now) result count.new room.old room.new }
    ensures rest { LeavesRest result count.old count.new room.old room.new }
{
    match desk.misses() {
        Ok(misses) => fill(&misses, room, count),
        Err(_) => NO_MEMORY,
    }
}

/// Writes the figures.
fn fill_figures(desk: &Desk, room: &mut [RawFigures], count: &mut usize) -> u32
    ensures figures { MayFillRoom (figures_now desk.now) result count.new room.old room.new }
    ensures rest { LeavesRest result count.old count.new room.old room.new }
{
    match figures(desk) {
        Ok(figures) => fill(&figures, room, count),
        Err(_) => NO_MEMORY,
    }
}

/// The figures of a desk.
fn figures(desk: &Desk) -> Result<Vec<Figures>, AllocError>
    ensures { IfOk result (λ v. v.items ≡ figures_of desk.now.state.plan (run_of desk.now.state.plan desk.now.state.now) desk.now.rows) }
{
    let snapshot = desk.snapshot()?;
    snapshot.figures()
}

/// Writes the events held.
fn fill_events(alloc: Global, desk: &Desk, room: &mut [RawNumbered], count: &mut usize) -> u32
    ensures events { MayFillRoom (events_now desk.now) result count.new room.old room.new }
    ensures rest { LeavesRest result count.old count.new room.old room.new }
{
    match events(alloc, desk) {
        Ok(events) => fill(&events, room, count),
        Err(_) => NO_MEMORY,
    }
}

/// The events held.
fn events(alloc: Global, desk: &Desk) -> Result<Vec<Numbered>, AllocError>
    ensures { IfOk result (λ v. v.items ≡ desk.now.state.plan.events) }
{
    let mut held = Vec::new(alloc);
    for numbered in desk.scenario().events() {
        held.push(numbered)?;
    }
    Ok(held)
}
