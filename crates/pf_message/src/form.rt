ghost use Rattle.std.specs.Prelude.{◌≡◌, ◌++◌, OnOk};
ghost use Rattle.pf_message.specs.Form.{file_front, hint_line, position_front};

use crate::position::Position;
use pf_text::file_name::push_file;
use pf_text::numbers::push_number;
use std::alloc::AllocError;

/// Appends what stands before a message of a file: `FILE: `.
///
/// # Errors
///
/// Where memory is refused: the text is given up.
pub fn push_file_front(text: &mut Vec<u8>, file: &[u8]) -> Result<(), AllocError>
    ensures { OnOk result (text.new.items ≡ text.old.items ++ file_front file.now) }
{
    push_file(text, file)?;
    text.extend_from_slice(b": ")
}

/// Appends what stands before a message of a position in a file: `FILE:LINE:COLUMN: `.
///
/// # Errors
///
/// Where memory is refused: the text is given up.
pub fn push_position_front(
    text: &mut Vec<u8>,
    file: &[u8],
    position: Position,
) -> Result<(), AllocError>
    ensures { OnOk result (text.new.items ≡ text.old.items ++ position_front file.now position) }
{
    push_file(text, file)?;
    text.extend_from_slice(b":")?;
    push_number(text, position.line)?;
    text.extend_from_slice(b":")?;
    push_number(text, position.column)?;
    text.extend_from_slice(b": ")
}

/// Appends the line that says what would be right: `  hint: ..`.
///
/// # Errors
///
/// Where memory is refused: the text is given up.
pub fn push_hint(text: &mut Vec<u8>, hint: &[u8]) -> Result<(), AllocError>
    ensures { OnOk result (text.new.items ≡ text.old.items ++ hint_line hint.now) }
{
    text.extend_from_slice(b"  hint: ")?;
    text.extend_from_slice(hint)?;
    text.extend_from_slice(b"\n")
}
