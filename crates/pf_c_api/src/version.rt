ghost use Rattle.std.specs.Prelude.{◌≡◌, codes};
ghost use Rattle.pf_c_api.specs.Told.{FillsRoom};

use crate::room::fill_text;

/// The version of the header.
const VERSION: &str = "0.4.0";

/// The number of the calls and structs of the header: another one where a program would call them wrongly.
const ABI: u32 = 1;

/// Tells the version of the header that the library was made with, as a text. `count` is how many bytes it has, where the
/// room is too short too.
///
/// # Errors
///
/// `TOO_SHORT`: the room is as before.
#[unsafe(no_mangle)]
pub extern "C" fn pfair_version(room: &mut [u8], count: &mut usize) -> u32
    ensures { FillsRoom (codes "0.4.0") result count.new room.old room.new }
{
    fill_text(VERSION.as_bytes(), room, count)
}

/// The number of the calls and structs of the header that the library was made with: who loads it compares the two.
#[unsafe(no_mangle)]
pub extern "C" fn pfair_abi() -> u32
    ensures { result ≡ 1 }
{
    ABI
}
