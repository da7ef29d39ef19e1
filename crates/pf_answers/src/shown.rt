ghost use Rattle.std.specs.Prelude.{◌≡◌, ◌++◌, OnOk};
ghost use Rattle.std.specs.List.{flat_map};
ghost use Rattle.pf_answers.specs.Shown.{shown_text, unless_end};

use crate::quoted::push_quoted;
use std::alloc::AllocError;

/// Appends a byte, but where it ends a line.
fn push_unless_end(text: &mut Vec<u8>, byte: u8) -> Result<(), AllocError>
    ensures { OnOk result (text.new.items ≡ text.old.items ++ unless_end byte) }
{
    if byte != b'\n' {
        text.push(byte)?;
    }
    Ok(())
}

/// Appends JSON on one line.
fn push_value(text: &mut Vec<u8>, value: &[u8]) -> Result<(), AllocError>
    ensures { OnOk result (text.new.items ≡ text.old.items ++ flat_map unless_end value.now) }
{
    for byte in value {
        push_unless_end(text, *byte)?;
    }
    Ok(())
}

/// Appends a text that is shown. `is_value`: it is JSON itself.
///
/// # Errors
///
/// Where memory is refused: the text is given up.
pub fn push_shown(
    text: &mut Vec<u8>,
    json: bool,
    is_value: bool,
    shown: &[u8],
) -> Result<(), AllocError>
    ensures { OnOk result (text.new.items ≡ text.old.items ++ shown_text json is_value shown.now) }
{
    if !json {
        return text.extend_from_slice(shown);
    }
    if is_value {
        text.extend_from_slice(b"{\"value\":")?;
        push_value(text, shown)?;
    } else {
        text.extend_from_slice(b"{\"text\":")?;
        push_quoted(text, shown)?;
    }
    text.extend_from_slice(b"}\n")
}
