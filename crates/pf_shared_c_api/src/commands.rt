ghost use Rattle.std.specs.Prelude.{◌≡◌, None, Some, IfSome};
ghost use Rattle.pf_desk.specs.declared.command.Command.TheVariants.{Edit};
ghost use Rattle.pf_c_forms.specs.Asked.{change_in};
ghost use Rattle.pf_c_forms.specs.declared.status.TheConstants.{NOT_OPEN, UNKNOWN_KIND};
ghost use Rattle.pf_shared_c_api.specs.Commanding.{EditsAt, StepsAt, TellsReply, status_of_unanswered};
ghost use Rattle.pf_shared_c_api.specs.Handles.{ChangesCaller};

use crate::content::Content;
use crate::handle::CallerHandle;
use pf_c_forms::raw_change::RawChange;
use pf_c_forms::raw_pick::RawPick;
use pf_c_forms::raw_reply::{RawReply, status};
use pf_c_forms::row_room::fill_places;
use pf_c_forms::status::{BUSY, NO_MEMORY, NOT_OPEN, PENDING, UNKNOWN_KIND};
use pf_desk::reply::Reply;
use pf_scenario::change::Change;
use pf_scenario::settings::MOST_PROCESSORS;
use pf_shared_desk::caller::Caller;
use pf_shared_desk::unanswered::Unanswered;
use std::alloc::Global;

/// Has the desk answer a change, as an entry of the one history: `reply` has the number of the event concerned, or tells more
/// of a refusal. A strict change is refused where the run so far would then have any denial.
///
/// # Errors
///
/// A number of the table of refusals, 10 to 24 or `WOULD_DENY`: nothing changed but the history. `BUSY` where another caller
/// is at the desk, `NOT_OPEN`, `NO_MEMORY` and `UNKNOWN_KIND`: no entry, and all is as before, `reply` too.
#[unsafe(no_mangle)]
pub extern "C" fn pfair_caller_edit(
    alloc: Global,
    caller: &mut CallerHandle,
    change: &RawChange,
    strict: bool,
    reply: &mut RawReply,
) -> u32
    ensures unknown { change_in change.now ≡ None → (result ≡ UNKNOWN_KIND) × (caller.new.value ≡ caller.old.value) × (reply.new ≡ reply.old) }
    ensures edits { IfSome (change_in change.now)
        (λ c. ChangesCaller caller.old.value result caller.new.value (EditsAt (Edit c strict) result reply.old reply.new)) }
    ensures closed { result ≡ NOT_OPEN → reply.new ≡ reply.old }
{
    let Some(change) = change.change() else {
        return UNKNOWN_KIND;
    };
    match caller.take(alloc) {
        None => NOT_OPEN,
        Some(mut content) => {
            let status = edit(&mut content, change, strict, reply);
            caller.put(alloc, content);
            status
        }
    }
}

/// Has the desk answer a step, as an entry of the one history: the next slot is taken, and its quanta lie on the processors.
/// `slot` is its number, and the room gets a pick for each processor, or for as many of them as it is long.
///
/// # Errors
///
/// `AT_HORIZON` where no slot is left: nothing changed but the history. `PENDING` where a quantum lies untaken: no entry, and
/// `processor` is the lowest on which one does. `BUSY` where another caller is at the desk, `NOT_OPEN`, `NO_MEMORY`: no
/// entry. What is not told of is as before.
#[unsafe(no_mangle)]
pub extern "C" fn pfair_caller_step(
    alloc: Global,
    caller: &mut CallerHandle,
    slot: &mut u64,
    processor: &mut u32,
    room: &mut [RawPick],
) -> u32
    ensures steps { ChangesCaller caller.old.value result caller.new.value
        (StepsAt result slot.old slot.new processor.old processor.new room.old room.new) }
    ensures closed { result ≡ NOT_OPEN → (slot.new ≡ slot.old) × (processor.new ≡ processor.old) × (room.new ≡ room.old) }
{
    match caller.take(alloc) {
        None => NOT_OPEN,
        Some(mut content) => {
            let status = step(&mut content, slot, processor, room);
            caller.put(alloc, content);
            status
        }
    }
}

/// Makes a change, where a caller is there.
fn edit(content: &mut Content, change: Change, strict: bool, answer: &mut RawReply) -> u32
    ensures edits { ChangesCaller (Some content.old) result (Some content.new) (EditsAt (Edit change strict) result answer.old answer.new) }
    ensures closed { result ≡ NOT_OPEN → answer.new ≡ answer.old }
{
    match content {
        Content::Caller(caller) => edit_as(caller, change, strict, answer),
        _ => NOT_OPEN,
    }
}

/// Makes a change as a caller.
fn edit_as(caller: &mut Caller, change: Change, strict: bool, answer: &mut RawReply) -> u32
    ensures edits { EditsAt (Edit change strict) result answer.old answer.new caller.old caller.new }
    ensures closed { result ≡ NOT_OPEN → answer.new ≡ answer.old }
{
    match caller.edit(change, strict) {
        Ok(done) => {
            *answer = RawReply::of(&done.reply);
            status(&done.reply)
        }
        Err(unanswered) => unanswered_status(unanswered),
    }
}

/// Takes the next slot, where a caller is there.
fn step(content: &mut Content, slot: &mut u64, processor: &mut u32, room: &mut [RawPick]) -> u32
    ensures steps { ChangesCaller (Some content.old) result (Some content.new)
        (StepsAt result slot.old slot.new processor.old processor.new room.old room.new) }
    ensures closed { result ≡ NOT_OPEN → (slot.new ≡ slot.old) × (processor.new ≡ processor.old) × (room.new ≡ room.old) }
{
    match content {
        Content::Caller(caller) => step_as(caller, slot, processor, room),
        _ => NOT_OPEN,
    }
}

/// Takes the next slot as a caller.
fn step_as(caller: &mut Caller, slot: &mut u64, processor: &mut u32, room: &mut [RawPick]) -> u32
    ensures steps { StepsAt result slot.old slot.new processor.old processor.new room.old room.new caller.old caller.new }
    ensures closed { result ≡ NOT_OPEN → (slot.new ≡ slot.old) × (processor.new ≡ processor.old) × (room.new ≡ room.old) }
{
    match caller.step() {
        Ok(done) => {
            tell(&done.reply, slot, room);
            status(&done.reply)
        }
        Err(unanswered) => {
            if let Unanswered::Pending { processor: untaken } = unanswered {
                *processor = untaken;
            }
            unanswered_status(unanswered)
        }
    }
}

/// Tells the slot that was taken, and who runs where in it.
fn tell(reply: &Reply, slot: &mut u64, room: &mut [RawPick])
    ensures { TellsReply reply.now slot.old slot.new room.old room.new }
{
    if let Reply::Stepped { slot: stepped, row } = reply {
        *slot = *stepped;
        let places = room
            .len()
            .min(row.processors())
            .min(MOST_PROCESSORS as usize);
        fill_places(row.view(), places as u32, room);
    }
}

/// The status of a command that is no entry.
fn unanswered_status(unanswered: Unanswered) -> u32
    ensures { result ≡ status_of_unanswered unanswered }
{
    match unanswered {
        Unanswered::Busy => BUSY,
        Unanswered::Pending { .. } => PENDING,
        Unanswered::NoMemory => NO_MEMORY,
    }
}
