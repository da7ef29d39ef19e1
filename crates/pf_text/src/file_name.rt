ghost use Rattle.std.specs.Prelude.{◌≡◌, ◌++◌, OnOk};
ghost use Rattle.pf_text.specs.FileName.{file_text, shown_after};

use crate::character::plain_len;
use crate::escape::push_escape;
use std::alloc::AllocError;

/// Appends bytes of a name.
fn push_bytes(text: &mut Vec<u8>, bytes: &[u8]) -> Result<(), AllocError>
    ensures { OnOk result (text.new.items ≡ text.old.items ++ shown_after 0 bytes.now) }
{
    let mut left = 0;
    for (index, byte) in bytes.iter().enumerate() {
        if left == 0 {
            left = plain_len(&bytes[index..]);
        }
        if left == 0 {
            push_escape(text, *byte)?;
        } else {
            text.push(*byte)?;
            left -= 1;
        }
    }
    Ok(())
}

/// Appends a file's name: its characters as they are, but for Unicode's controls and marks of direction. The bytes of these, and
/// those that are no part of a well-formed UTF-8 character, are each shown as `\xHH`, two digits of base 16. A name without a byte
/// is `""`.
///
/// # Errors
///
/// Where memory is refused: the text is given up.
pub fn push_file(text: &mut Vec<u8>, file: &[u8]) -> Result<(), AllocError>
    ensures { OnOk result (text.new.items ≡ text.old.items ++ file_text file.now) }
{
    match file {
        [] => text.extend_from_slice(b"\"\""),
        _ => push_bytes(text, file),
    }
}
