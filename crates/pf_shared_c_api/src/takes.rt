ghost use Rattle.std.specs.Prelude.{◌≡◌, Some};
ghost use Rattle.pf_c_forms.specs.declared.status.TheConstants.{OK};
ghost use Rattle.pf_shared_c_api.specs.Handles.{ChangesCaller};
ghost use Rattle.pf_shared_c_api.specs.Taking.{LooksAt, TakesAt, TakesInAt, status_of_take, quantum_after_take};

use crate::content::Content;
use crate::handle::CallerHandle;
use crate::raw_quantum::RawQuantum;
use pf_board::take::Take;
use pf_c_forms::status::{NOT_OPEN, NOT_YET, NOTHING, OK, OUT_OF_RANGE};
use pf_shared_desk::slot_take::SlotTake;
use std::alloc::Global;

/// Takes the quantum of a processor, which is then this caller's alone.
///
/// # Errors
///
/// `NOTHING` where no quantum was there, `OUT_OF_RANGE` where there is no such processor, `NOT_OPEN`: `quantum` is as before.
#[unsafe(no_mangle)]
pub extern "C" fn pfair_caller_take(
    alloc: Global,
    caller: &mut CallerHandle,
    processor: u32,
    quantum: &mut RawQuantum,
) -> u32
    ensures takes { ChangesCaller caller.old.value result caller.new.value (TakesAt processor result quantum.old quantum.new) }
    ensures rest { (result ≡ OK → ⊥) → quantum.new ≡ quantum.old }
{
    match caller.take(alloc) {
        None => NOT_OPEN,
        Some(mut content) => {
            let status = take(&mut content, processor, quantum);
            caller.put(alloc, content);
            status
        }
    }
}

/// Takes the quantum of a processor in a slot, where that is the last one stepped.
///
/// # Errors
///
/// `NOT_YET` where the slot is not stepped yet; `NOTHING` where no quantum was there, or a later slot is stepped already;
/// `OUT_OF_RANGE` where there is no such processor, `NOT_OPEN`: `quantum` is as before.
#[unsafe(no_mangle)]
pub extern "C" fn pfair_caller_take_in(
    alloc: Global,
    caller: &mut CallerHandle,
    processor: u32,
    slot: u64,
    quantum: &mut RawQuantum,
) -> u32
    ensures takes { ChangesCaller caller.old.value result caller.new.value (TakesInAt processor result quantum.old quantum.new) }
    ensures rest { (result ≡ OK → ⊥) → quantum.new ≡ quantum.old }
{
    match caller.take(alloc) {
        None => NOT_OPEN,
        Some(mut content) => {
            let status = take_in(&mut content, processor, slot, quantum);
            caller.put(alloc, content);
            status
        }
    }
}

/// Tells how many slots were stepped: the quanta of each of them lie on the processors, or did.
///
/// # Errors
///
/// `NOT_OPEN`: `slots` is as before.
#[unsafe(no_mangle)]
pub extern "C" fn pfair_caller_stepped(
    alloc: Global,
    caller: &mut CallerHandle,
    slots: &mut u64,
) -> u32
    ensures same { ChangesCaller caller.old.value result caller.new.value (λ before after. (result ≡ OK) × (after ≡ before)) }
    ensures rest { (result ≡ OK → ⊥) → slots.new ≡ slots.old }
{
    match caller.take(alloc) {
        None => NOT_OPEN,
        Some(content) => {
            let status = count_stepped(&content, slots);
            caller.put(alloc, content);
            status
        }
    }
}

/// Tells how many entries the history has, all of which the caller has then seen.
///
/// # Errors
///
/// `NOT_OPEN`: `entries` is as before.
#[unsafe(no_mangle)]
pub extern "C" fn pfair_caller_look(
    alloc: Global,
    caller: &mut CallerHandle,
    entries: &mut u64,
) -> u32
    ensures looks { ChangesCaller caller.old.value result caller.new.value (LooksAt result entries.new) }
    ensures rest { (result ≡ OK → ⊥) → entries.new ≡ entries.old }
{
    match caller.take(alloc) {
        None => NOT_OPEN,
        Some(mut content) => {
            let status = look(&mut content, entries);
            caller.put(alloc, content);
            status
        }
    }
}

/// Takes the quantum of a processor, where a caller is there.
fn take(content: &mut Content, processor: u32, out: &mut RawQuantum) -> u32
    ensures takes { ChangesCaller (Some content.old) result (Some content.new) (TakesAt processor result out.old out.new) }
    ensures rest { (result ≡ OK → ⊥) → out.new ≡ out.old }
{
    match content {
        Content::Caller(caller) => tell(caller.take(processor), out),
        _ => NOT_OPEN,
    }
}

/// Takes the quantum of a processor in a slot, where a caller is there.
fn take_in(content: &mut Content, processor: u32, slot: u64, out: &mut RawQuantum) -> u32
    ensures takes { ChangesCaller (Some content.old) result (Some content.new) (TakesInAt processor result out.old out.new) }
    ensures rest { (result ≡ OK → ⊥) → out.new ≡ out.old }
{
    match content {
        Content::Caller(caller) => match caller.take_in(processor, slot) {
            SlotTake::NotYet => NOT_YET,
            SlotTake::Past => NOTHING,
            SlotTake::Found(take) => tell(take, out),
        },
        _ => NOT_OPEN,
    }
}

/// Counts the slots stepped, where a caller is there.
fn count_stepped(content: &Content, out: &mut u64) -> u32
    ensures same { ChangesCaller (Some content.now) result (Some content.now) (λ before after. (result ≡ OK) × (after ≡ before)) }
    ensures rest { (result ≡ OK → ⊥) → out.new ≡ out.old }
{
    match content {
        Content::Caller(caller) => {
            *out = caller.stepped();
            OK
        }
        _ => NOT_OPEN,
    }
}

/// Looks at the history, where a caller is there.
fn look(content: &mut Content, out: &mut u64) -> u32
    ensures looks { ChangesCaller (Some content.old) result (Some content.new) (LooksAt result out.new) }
    ensures rest { (result ≡ OK → ⊥) → out.new ≡ out.old }
{
    match content {
        Content::Caller(caller) => {
            *out = caller.look();
            OK
        }
        _ => NOT_OPEN,
    }
}

/// Tells what a take got.
fn tell(take: Take, out: &mut RawQuantum) -> u32
    ensures status { result ≡ status_of_take take }
    ensures quantum { out.new ≡ quantum_after_take out.old take }
{
    match take {
        Take::Got(quantum) => {
            *out = RawQuantum::of(quantum);
            OK
        }
        Take::Empty | Take::Gone => NOTHING,
        Take::NoProcessor => OUT_OF_RANGE,
    }
}
