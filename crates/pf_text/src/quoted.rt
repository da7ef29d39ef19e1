ghost use Rattle.std.specs.Prelude.{◌≡◌, ◌++◌, take, OnOk};
ghost use Rattle.std.specs.List.{flat_map};
ghost use Rattle.pf_text.specs.Quoted.{quoted, shown_byte};

use crate::escape::push_escape;
use std::alloc::AllocError;

/// The most bytes of a field that are shown.
pub const MOST_SHOWN: usize = 40;

/// Adds a field in quotes, cut: its first 40 bytes, those that are no ASCII character, `"` and `\` each as `\xHH`.
///
/// # Errors
///
/// Where memory is refused: the text is given up.
#[tactic(auto, unfolding(crate::specs::Quoted::quoted))]
pub fn push_quoted(text: &mut Vec<u8>, field: &[u8]) -> Result<(), AllocError>
    ensures { OnOk result (text.new.items ≡ text.old.items ++ quoted field.now) }
{
    text.extend_from_slice(b"\"")?;
    push_bytes(text, front(field))?;
    text.extend_from_slice(b"\"")
}

/// The bytes of a field that are shown.
fn front(field: &[u8]) -> &[u8]
    ensures { result.now ≡ take MOST_SHOWN field.now }
{
    let end = MOST_SHOWN.min(field.len());
    &field[..end]
}

/// Bytes as they are shown.
fn push_bytes(text: &mut Vec<u8>, bytes: &[u8]) -> Result<(), AllocError>
    ensures { OnOk result (text.new.items ≡ text.old.items ++ flat_map shown_byte bytes.now) }
{
    for byte in bytes {
        push_byte(text, *byte)?;
    }
    Ok(())
}

/// A byte as it is shown.
fn push_byte(text: &mut Vec<u8>, byte: u8) -> Result<(), AllocError>
    ensures { OnOk result (text.new.items ≡ text.old.items ++ shown_byte byte) }
{
    if byte >= 32 && byte <= 126 && byte != b'"' && byte != b'\\' {
        return text.extend_from_slice(&[byte]);
    }
    push_escape(text, byte)
}
