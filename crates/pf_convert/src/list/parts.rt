ghost use Rattle.std.specs.Prelude.{◌≡◌, ◌++◌, OnOk};
ghost use Rattle.std.specs.List.{flat_map};
ghost use Rattle.pf_convert.specs.List.Parts.{part_text};

use crate::list::time::{places_of, push_time};
use pf_text::columns::decimals::{push_fewest_places, push_wide};
use pf_text::numbers::push_number;
use pf_text::quoted::push_quoted;
use pf_vocabulary::names::unit::Unit;
use std::alloc::AllocError;

/// A part of a line.
#[derive(Clone, Copy)]
pub enum Part<'a> {
    /// These words.
    Words(&'a str),
    /// These bytes.
    Bytes(&'a [u8]),
    /// These in quotes, cut.
    Quoted(&'a [u8]),
    /// A number in base 10.
    Number(u64),
    /// A longer one.
    Wide(u128),
    /// A time in nanoseconds, as a decimal in a unit.
    Decimal(Unit, u128),
    /// The same with the unit after it.
    Time(Unit, u128),
}

/// Adds parts to a text, one after another.
///
/// # Errors
///
/// Where memory is refused: a front of them was added.
pub fn push_parts(text: &mut Vec<u8>, parts: &[Part<'_>]) -> Result<(), AllocError>
    ensures { OnOk result (text.new.items ≡ text.old.items ++ flat_map part_text parts.now) }
{
    for part in parts {
        push_part(text, *part)?;
    }
    Ok(())
}

/// Adds a part to a text.
fn push_part(text: &mut Vec<u8>, part: Part<'_>) -> Result<(), AllocError>
    ensures { OnOk result (text.new.items ≡ text.old.items ++ part_text part.entry) }
{
    match part {
        Part::Words(words) => text.extend_from_slice(words.as_bytes()),
        Part::Bytes(bytes) => text.extend_from_slice(bytes),
        Part::Quoted(field) => push_quoted(text, field),
        Part::Number(number) => push_number(text, number),
        Part::Wide(number) => push_wide(text, number),
        Part::Decimal(unit, time) => push_fewest_places(text, places_of(unit), time),
        Part::Time(unit, time) => push_time(text, unit, time),
    }
}
