ghost use Rattle.std.specs.Prelude.{◌≡◌, ◌⊎◌, None, IfSome};
ghost use Rattle.pf_desk.specs.declared.command.Command.TheVariants.{Edit};
ghost use Rattle.pf_desk.specs.Desk.{IsDesk};
ghost use Rattle.pf_c_forms.specs.declared.status.TheConstants.{OK, AT_HORIZON, NOT_OPEN, UNKNOWN_KIND};
ghost use Rattle.pf_c_forms.specs.Asked.{change_in};
ghost use Rattle.pf_c_api.specs.Commanded.{AnswersEdit, AnswersStep, AnswersSteps, Changes};

use crate::handle::Handle;
use pf_c_forms::raw_change::RawChange;
use pf_c_forms::raw_reply::{RawReply, status};
use pf_c_forms::status::{NO_MEMORY, NOT_OPEN, OK, UNKNOWN_KIND};
use pf_desk::command::Command;
use pf_desk::desk::Desk;
use pf_order::meter::Meter;
use pf_scenario::change::Change;
use std::alloc::Global;

/// Has the desk answer a caller's change: `reply` has the number of the event concerned, or tells more of a refusal. A
/// strict change is refused where the run so far would then have any denial.
///
/// # Errors
///
/// A number of the table of refusals, 10 to 24 or `WOULD_DENY`: nothing changed but the history. `NOT_OPEN`, `NO_MEMORY`
/// and `UNKNOWN_KIND`: all is as before, `reply` too.
#[unsafe(no_mangle)]
pub extern "C" fn pfair_edit(
    alloc: Global,
    desk: &mut Handle,
    caller: u32,
    change: &RawChange,
    strict: bool,
    reply: &mut RawReply,
) -> u32
    ensures unknown { change_in change.now ≡ None → (result ≡ UNKNOWN_KIND) × (desk.new.value ≡ desk.old.value) × (reply.new ≡ reply.old) }
    ensures answers { IfSome (change_in change.now)
        (λ c. Changes desk.old.value result desk.new.value (AnswersEdit caller (Edit c strict) result reply.old reply.new)) }
    ensures closed { result ≡ NOT_OPEN → reply.new ≡ reply.old }
{
    let Some(change) = change.change() else {
        return UNKNOWN_KIND;
    };
    match desk.take(alloc) {
        None => NOT_OPEN,
        Some(mut held) => {
            let status = edit(&mut held.desk, caller, change, strict, reply);
            desk.put(alloc, held);
            status
        }
    }
}

/// Has the desk answer a caller's step: the next slot is taken.
///
/// # Errors
///
/// `AT_HORIZON` where no slot is left: nothing changed but the history. `NOT_OPEN` and `NO_MEMORY`: all is as before.
#[unsafe(no_mangle)]
pub extern "C" fn pfair_step(alloc: Global, desk: &mut Handle, caller: u32) -> u32
    ensures { Changes desk.old.value result desk.new.value (AnswersStep caller result) }
{
    match desk.take(alloc) {
        None => NOT_OPEN,
        Some(mut held) => {
            let status = step(&mut held.desk, caller);
            desk.put(alloc, held);
            status
        }
    }
}

/// Has the desk answer a caller's steps until `count` slots were taken, or a step took none. `taken` tells how many were.
///
/// # Errors
///
/// The status of the step that took none: `AT_HORIZON` or `NO_MEMORY`. `NOT_OPEN`: none was taken.
#[unsafe(no_mangle)]
pub extern "C" fn pfair_advance(
    alloc: Global,
    desk: &mut Handle,
    caller: u32,
    count: u64,
    taken: &mut u64,
) -> u32
    ensures answers { Changes desk.old.value result desk.new.value (AnswersSteps caller count result taken.new) }
    ensures closed { result ≡ NOT_OPEN → taken.new ≡ 0 }
{
    *taken = 0;
    match desk.take(alloc) {
        None => NOT_OPEN,
        Some(mut held) => {
            let status = advance(&mut held.desk, caller, count, taken);
            desk.put(alloc, held);
            status
        }
    }
}

/// Has a desk answer a change.
fn edit(desk: &mut Desk, caller: u32, change: Change, strict: bool, telling: &mut RawReply) -> u32
    ensures answers { AnswersEdit caller (Edit change strict) result telling.old telling.new desk.old desk.new }
    ensures desk { IsDesk desk.new }
    ensures open { result ≡ NOT_OPEN → telling.new ≡ telling.old }
{
    let mut meter = Meter::new();
    match desk.apply(&mut meter, caller, Command::Edit { change, strict }) {
        Ok(reply) => {
            *telling = RawReply::of(&reply);
            status(&reply)
        }
        Err(_) => NO_MEMORY,
    }
}

/// Has a desk answer a step.
fn step(desk: &mut Desk, caller: u32) -> u32
    ensures answers { AnswersStep caller result desk.old desk.new }
    ensures desk { IsDesk desk.new }
{
    let mut meter = Meter::new();
    match desk.apply(&mut meter, caller, Command::Step) {
        Ok(reply) => status(&reply),
        Err(_) => NO_MEMORY,
    }
}

/// Has a desk answer steps until so many slots were taken, or a step took none.
fn advance(desk: &mut Desk, caller: u32, count: u64, taken: &mut u64) -> u32
    requires { taken.old ≡ 0 }
    ensures answers { AnswersSteps caller count result taken.new desk.old desk.new }
    ensures desk { IsDesk desk.new }
{
    // A field is read, so that what holds of every desk is known where no slot is asked for.
    let _ = desk.now();
    while *taken < count {
        let status = step(desk, caller);
        if status != OK {
            return status;
        }
        *taken += 1;
    }
    OK
}
