ghost use Rattle.std.specs.Prelude.{◌≡◌, ◌++◌, OnOk};
ghost use Rattle.std.specs.List.{flat_map};
ghost use Rattle.pf_code.specs.Parts.{part_text};

use pf_text::columns::decimals::push_wide;
use pf_text::numbers::push_number;
use std::alloc::AllocError;

/// A part of a line.
#[derive(Clone, Copy)]
pub enum Part<'a> {
    /// These words.
    Words(&'a str),
    /// These bytes.
    Bytes(&'a [u8]),
    /// A number in base 10.
    Number(u64),
    /// A longer one.
    Wide(u128),
}

/// Adds a part to a text.
fn push_part(text: &mut Vec<u8>, part: Part<'_>) -> Result<(), AllocError>
    ensures { OnOk result (text.new.items ≡ text.old.items ++ part_text part.entry) }
{
    match part {
        Part::Words(words) => text.extend_from_slice(words.as_bytes()),
        Part::Bytes(bytes) => text.extend_from_slice(bytes),
        Part::Number(number) => push_number(text, number),
        Part::Wide(number) => push_wide(text, number),
    }
}

/// Adds parts to a text, one after another.
pub(crate) fn push_parts(text: &mut Vec<u8>, parts: &[Part<'_>]) -> Result<(), AllocError>
    ensures { OnOk result (text.new.items ≡ text.old.items ++ flat_map part_text parts.now) }
{
    for part in parts {
        push_part(text, *part)?;
    }
    Ok(())
}
