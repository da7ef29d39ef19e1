ghost use Rattle.std.specs.Prelude.{◌≡◌, map};
ghost use Rattle.pf_c_api.specs.Told.{FillsRoom};

use crate::for_c::ForC;
use pf_c_forms::status::{OK, TOO_SHORT};

/// Writes all of a list into a caller's room, each value in its form for C, or nothing where the room is too short. `count`
/// is how many there are.
pub fn fill<T: ForC>(list: &[T], room: &mut [T::Raw], count: &mut usize) -> u32
    ensures { FillsRoom (map T.raw list.now) result count.new room.old room.new }
{
    *count = list.len();
    if room.len() < list.len() {
        return TOO_SHORT;
    }
    for k in 0..list.len() {
        room[k] = list[k].for_c();
    }
    OK
}

/// Writes all of a text into a caller's room, or nothing where the room is too short. `count` is how many bytes it has.
pub fn fill_text(text: &[u8], room: &mut [u8], count: &mut usize) -> u32
    ensures { FillsRoom text.now result count.new room.old room.new }
{
    *count = text.len();
    if room.len() < text.len() {
        return TOO_SHORT;
    }
    room[..text.len()].copy_from_slice(text);
    OK
}
