ghost use Rattle.std.specs.Prelude.{◌≡◌};
ghost use Rattle.pf_c_api.specs.Pictures.{TellsPicture, look_in};
ghost use Rattle.pf_c_api.specs.Told.{LeavesRest, TellsHeld};

use crate::handle::Handle;
use crate::raw_look::RawLook;
use crate::text_kind::slots_between;
use crate::texts::fill_format;
use pf_c_forms::status::{NOT_OPEN, OUT_OF_RANGE};
use pf_vocabulary::options::format::Format;
use std::alloc::Global;

/// Writes a picture as SVG of the slots from `from` on and below `to`, at most `MOST_SLOTS` of pf_vocabulary, in this look.
/// `count` is how many bytes it has, where the room is too short too.
///
/// # Errors
///
/// `OUT_OF_RANGE` where `from` is above `to` or that above the slots stepped, for more slots, and where a number of the look
/// is out of its limits; `TOO_SHORT`, `NO_MEMORY`, `NOT_OPEN`. The room is as before.
#[unsafe(no_mangle)]
pub extern "C" fn pfair_svg(
    alloc: Global,
    desk: &mut Handle,
    from: u64,
    to: u64,
    look: &RawLook,
    room: &mut [u8],
    count: &mut usize,
) -> u32
    ensures same { desk.new.value ≡ desk.old.value }
    ensures picture { TellsHeld desk.old.value result
        (λ h. TellsPicture (look_in look.now) from to h result count.new room.old room.new) }
    ensures rest { LeavesRest result count.old count.new room.old room.new }
{
    match desk.take(alloc) {
        None => NOT_OPEN,
        Some(held) => {
            let status = match look.look() {
                None => OUT_OF_RANGE,
                Some(look) => {
                    let format = Format::Svg(slots_between(from, to), look);
                    fill_format(alloc, &held, format, room, count)
                }
            };
            desk.put(alloc, held);
            status
        }
    }
}
