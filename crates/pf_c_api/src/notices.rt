ghost use Rattle.std.specs.Prelude.{◌≡◌};
ghost use Rattle.pf_c_api.specs.Notices.{TellsNotice, name_of, sentence_of};
ghost use Rattle.pf_c_api.specs.Told.{LeavesRest};

use crate::notice::Notice;
use crate::room::fill_text;
use pf_c_forms::status::UNKNOWN_KIND;

/// Writes the name of a status or of a reason, as the table of refusals has it: "JoinTwice" of 16. `count` is how many bytes
/// it has, where the room is too short too.
///
/// # Errors
///
/// `UNKNOWN_KIND` where neither a status nor a reason has this number, `TOO_SHORT`: the room is as before.
#[unsafe(no_mangle)]
pub extern "C" fn pfair_name(number: u32, room: &mut [u8], count: &mut usize) -> u32
    ensures name { TellsNotice name_of number result count.new room.old room.new }
    ensures rest { LeavesRest result count.old count.new room.old room.new }
{
    match Notice::numbered(number) {
        None => UNKNOWN_KIND,
        Some(notice) => fill_text(notice.name().as_bytes(), room, count),
    }
}

/// Writes what a status or a reason says, for people to read: "another event joins the task" of 16. `count` is how many
/// bytes that has, where the room is too short too.
///
/// # Errors
///
/// `UNKNOWN_KIND` where neither a status nor a reason has this number, `TOO_SHORT`: the room is as before.
#[unsafe(no_mangle)]
pub extern "C" fn pfair_sentence(number: u32, room: &mut [u8], count: &mut usize) -> u32
    ensures sentence { TellsNotice sentence_of number result count.new room.old room.new }
    ensures rest { LeavesRest result count.old count.new room.old room.new }
{
    match Notice::numbered(number) {
        None => UNKNOWN_KIND,
        Some(notice) => fill_text(notice.sentence().as_bytes(), room, count),
    }
}
