ghost use Rattle.std.specs.Prelude.{◌≡◌, ◌⊎◌, None, IfOk, IfSome};
ghost use Rattle.pf_desk.specs.declared.command.Command.TheVariants.{Edit};
ghost use Rattle.pf_desk.specs.Desk.{IsAsBefore};
ghost use Rattle.pf_vocabulary.specs.Options.Formats.{range_fault};
ghost use Rattle.pf_c_forms.specs.declared.status.TheConstants.{UNKNOWN_KIND};
ghost use Rattle.pf_c_forms.specs.Asked.{change_in};
ghost use Rattle.pf_c_api.specs.Supposed.{StaysAsBefore, Supposes, TellsReady};
ghost use Rattle.pf_c_api.specs.Texts.{format_numbered, text_seen};
ghost use Rattle.pf_c_api.specs.Told.{LeavesRest, TellsHeld};

use crate::handle::Handle;
use crate::held::Held;
use crate::refusals::refusals_told;
use crate::room::fill_text;
use crate::text_kind::format_numbered;
use crate::texts::text_of_snapshot;
use pf_c_forms::raw_change::RawChange;
use pf_c_forms::raw_reply::{RawReply, status};
use pf_c_forms::status::{NO_MEMORY, NOT_OPEN, OK, OUT_OF_RANGE, UNKNOWN_KIND};
use pf_desk::command::Command;
use pf_desk::prepared::Prepared;
use pf_order::meter::Meter;
use pf_scenario::change::Change;
use pf_vocabulary::options::format::Format;
use std::alloc::{AllocError, Global};

/// Tells what a caller's change would be answered, and where it would be made, writes a text of the desk as it would then
/// be. The desk is as before. `count` is how many bytes the text has, where the room is too short too.
///
/// # Errors
///
/// The number of the refusal that the change would get, which `reply` tells more of; `TOO_SHORT`; `OUT_OF_RANGE` where the text is
/// a page of more slots than one may show; `NOT_OPEN`, `NO_MEMORY` and `UNKNOWN_KIND`, of the change or the text: `reply` is as
/// before. The room is as before with each of them.
#[unsafe(no_mangle)]
pub extern "C" fn pfair_what_if(
    alloc: Global,
    desk: &mut Handle,
    caller: u32,
    change: &RawChange,
    strict: bool,
    reply: &mut RawReply,
    kind: u64,
    room: &mut [u8],
    count: &mut usize,
) -> u32
    ensures unknown { (change_in change.now ≡ None) ⊎ (format_numbered kind ≡ None) → (result ≡ UNKNOWN_KIND) × (reply.new ≡ reply.old) }
    ensures supposes { IfSome (change_in change.now) (λ c. IfSome (format_numbered kind) (λ f. TellsHeld desk.old.value result
        (λ h. Supposes caller (Edit c strict) f h result reply.old reply.new count.new room.old room.new))) }
    ensures desk { StaysAsBefore desk.old.value desk.new.value }
    ensures rest { LeavesRest result count.old count.new room.old room.new }
{
    let Some(change) = change.change() else {
        return UNKNOWN_KIND;
    };
    let Some(format) = format_numbered(kind) else {
        return UNKNOWN_KIND;
    };
    suppose_at(
        alloc, desk, caller, change, strict, reply, format, room, count,
    )
}

/// Tells of the desk at a handle what a change would be answered, and a text of it as it would then be.
fn suppose_at(
    alloc: Global,
    desk: &mut Handle,
    caller: u32,
    change: Change,
    strict: bool,
    reply: &mut RawReply,
    format: Format,
    room: &mut [u8],
    count: &mut usize,
) -> u32
    ensures supposes { TellsHeld desk.old.value result
        (λ h. Supposes caller (Edit change strict) format h result reply.old reply.new count.new room.old room.new) }
    ensures desk { StaysAsBefore desk.old.value desk.new.value }
    ensures rest { LeavesRest result count.old count.new room.old room.new }
{
    match desk.take(alloc) {
        None => NOT_OPEN,
        Some(mut held) => {
            let status = suppose(
                alloc, &mut held, caller, change, strict, reply, format, room, count,
            );
            desk.put(alloc, held);
            status
        }
    }
}

/// Tells what a change would be answered, and a text of the desk as it would then be.
fn suppose(
    alloc: Global,
    held: &mut Held,
    caller: u32,
    change: Change,
    strict: bool,
    telling: &mut RawReply,
    format: Format,
    room: &mut [u8],
    count: &mut usize,
) -> u32
    ensures supposes { Supposes caller (Edit change strict) format held.old result telling.old telling.new count.new room.old room.new }
    ensures desk { IsAsBefore held.old.desk held.new.desk }
    ensures titles { held.new.titles ≡ held.old.titles }
    ensures rest { LeavesRest result count.old count.new room.old room.new }
{
    let mut meter = Meter::new();
    match held
        .desk
        .prepare(&mut meter, caller, Command::Edit { change, strict })
    {
        Ok(prepared) => tell_ready(alloc, held, &prepared, telling, format, room, count),
        Err(_) => NO_MEMORY,
    }
}

/// Tells the reply of a command that was made ready for a desk, and a text of the desk as it would then be.
fn tell_ready(
    alloc: Global,
    held: &Held,
    prepared: &Prepared,
    telling: &mut RawReply,
    format: Format,
    room: &mut [u8],
    count: &mut usize,
) -> u32
    ensures tells { TellsReady prepared.now.entry.reply prepared.now.seen format held.now result telling.old telling.new count.new room.old room.new }
    ensures rest { LeavesRest result count.old count.new room.old room.new }
{
    let answer = status(prepared.reply());
    if answer != OK {
        *telling = RawReply::of(prepared.reply());
        return answer;
    }
    if format.range_fault(prepared.snapshot().now()).is_some() {
        *telling = RawReply::of(prepared.reply());
        return OUT_OF_RANGE;
    }
    match text_ready(alloc, held, prepared, format) {
        Ok(text) => {
            *telling = RawReply::of(prepared.reply());
            fill_text(&text, room, count)
        }
        Err(_) => NO_MEMORY,
    }
}

/// A text of a desk as it would be after what was made ready for it.
fn text_ready(
    alloc: Global,
    held: &Held,
    prepared: &Prepared,
    format: Format,
) -> Result<Vec<u8>, AllocError>
    requires { range_fault format prepared.now.seen.state.now ≡ None }
    ensures { IfOk result (λ text. text.items ≡ text_seen format prepared.now.seen held.now) }
{
    // A copy of its own for each call: so the check follows both.
    let shown = format;
    let desk = &held.desk;
    let refusals = refusals_told(alloc, desk.history(), format)?;
    text_of_snapshot(
        alloc,
        prepared.snapshot(),
        shown,
        desk.distance(),
        &held.titles,
        refusals,
    )
}
