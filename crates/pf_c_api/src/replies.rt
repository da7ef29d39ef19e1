ghost use Rattle.std.specs.Prelude.{◌≡◌, All, IfOk, drop, length};
ghost use Rattle.std.specs.List.{flat_map};
ghost use Rattle.pf_report.specs.Replies.{HasFewPlaces, reply_line};
ghost use Rattle.pf_c_forms.specs.declared.status.TheConstants.{OK};
ghost use Rattle.pf_c_api.specs.Entries.{replies_from};
ghost use Rattle.pf_c_api.specs.Told.{LeavesRest, MayFillRoom, Tells};

use crate::handle::Handle;
use crate::room::fill_text;
use pf_c_forms::status::{NO_MEMORY, NOT_OPEN, OK};
use pf_desk::desk::Desk;
use pf_desk::history::History;
use pf_report::reply::push_reply;
use std::alloc::{AllocError, Global};

/// Tells how many commands the desk has answered.
///
/// # Errors
///
/// `NOT_OPEN`: `count` is as before.
#[unsafe(no_mangle)]
pub extern "C" fn pfair_entries(alloc: Global, desk: &mut Handle, count: &mut usize) -> u32
    ensures same { desk.new.value ≡ desk.old.value }
    ensures entries { Tells desk.old.value result (λ d. (result ≡ OK) × (count.new ≡ length d.history)) }
    ensures rest { (result ≡ OK → ⊥) → count.new ≡ count.old }
{
    match desk.take(alloc) {
        None => NOT_OPEN,
        Some(held) => {
            *count = held.desk.history().len();
            desk.put(alloc, held);
            OK
        }
    }
}

/// Writes the reply lines of the commands that the desk has answered, from the `first` on, counted from 0. `count` is how
/// many bytes they have, where the room is too short too.
///
/// # Errors
///
/// `TOO_SHORT`, `NO_MEMORY`, `NOT_OPEN`: the room is as before.
#[unsafe(no_mangle)]
pub extern "C" fn pfair_replies(
    alloc: Global,
    desk: &mut Handle,
    first: usize,
    room: &mut [u8],
    count: &mut usize,
) -> u32
    ensures same { desk.new.value ≡ desk.old.value }
    ensures replies { Tells desk.old.value result (λ d. MayFillRoom (replies_from first d) result count.new room.old room.new) }
    ensures rest { LeavesRest result count.old count.new room.old room.new }
{
    match desk.take(alloc) {
        None => NOT_OPEN,
        Some(held) => {
            let status = fill_replies(alloc, &held.desk, first, room, count);
            desk.put(alloc, held);
            status
        }
    }
}

/// Writes the reply lines from the `first` on.
fn fill_replies(alloc: Global, desk: &Desk, first: usize, room: &mut [u8], count: &mut usize) -> u32
    ensures replies { MayFillRoom (replies_from first desk.now) result count.new room.old room.new }
    ensures rest { LeavesRest result count.old count.new room.old room.new }
{
    match reply_lines(alloc, desk.history(), first) {
        Ok(text) => fill_text(&text, room, count),
        Err(_) => NO_MEMORY,
    }
}

/// The reply lines of the entries from the `first` on, each of which has at most 64 places.
fn reply_lines(alloc: Global, history: &History, first: usize) -> Result<Vec<u8>, AllocError>
    requires { All (λ e. HasFewPlaces e.reply) (drop first history.now.entries) }
    ensures { IfOk result (λ text. text.items ≡ flat_map (λ e. reply_line e.reply) (drop first history.now.entries)) }
{
    let mut text = Vec::new(alloc);
    for k in first..history.len() {
        let Some(entry) = history.entry(k) else {
            unreachable!();
        };
        push_reply(&mut text, entry.reply)?;
    }
    Ok(text)
}
