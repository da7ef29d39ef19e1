ghost use Rattle.std.specs.Prelude.{◌≡◌, ◌++◌, OnOk};
ghost use Rattle.pf_script.specs.Messages.FieldTexts.{named_text};
ghost use Rattle.pf_script.specs.Messages.Texts.{is_missing, is_of_settings, outside_text, reason_what, what_text};

use crate::fault::{Reason, RecordFault};
use crate::fields::Fields;
use crate::messages::field_text::{
    push_field, push_missing, push_named, push_shown, push_too_much,
};
use pf_text::numbers::push_number;
use std::alloc::{AllocError, Global};

/// Appends that a number is not within 1 to `most`.
///
/// # Errors
///
/// Where memory is refused: the text is given up.
pub fn push_outside(text: &mut Vec<u8>, number: u64, most: u64) -> Result<(), AllocError>
    ensures { OnOk result (text.new.items ≡ text.old.items ++ outside_text number most) }
{
    push_number(text, number)?;
    text.extend_from_slice(b" is not within 1 to ")?;
    push_number(text, most)
}

/// Whether the settings are what is wrong.
fn is_of_settings(reason: Reason) -> bool
    ensures { result ≡ is_of_settings reason }
{
    matches!(reason, Reason::NoSettings | Reason::LateSettings)
}

/// Whether the field at fault is not there.
pub(crate) fn is_missing(fields: &Fields, fault: RecordFault) -> bool
    ensures { result ≡ is_missing fields.now fault }
{
    fields.len() < fault.field && !is_of_settings(fault.reason)
}

/// Appends what is wrong with a bad record of version 1 or 2 that has these fields.
pub(crate) fn push_what(
    alloc: Global,
    text: &mut Vec<u8>,
    fields: &Fields,
    fault: RecordFault,
) -> Result<(), AllocError>
    ensures { OnOk result (text.new.items ≡ text.old.items ++ what_text fields.now fault) }
{
    if is_missing(fields, fault) {
        return push_missing(alloc, text, false, fields, fault.field);
    }
    let at = fields.field(fault.field.saturating_sub(1));
    push_reason(alloc, text, fields, fault.field, at, fault.reason)
}

/// The same by the reason, where the field at fault is there.
#[tactic(auto, unfolding(crate::specs::Messages::Texts::reason_what))]
fn push_reason(
    alloc: Global,
    text: &mut Vec<u8>,
    fields: &Fields,
    number: usize,
    at: &[u8],
    reason: Reason,
) -> Result<(), AllocError>
    ensures { OnOk result (text.new.items ≡ text.old.items ++ reason_what fields.now number at.now reason) }
{
    match reason {
        Reason::NoRecord(_) => push_shown(text, at, " is no record"),
        Reason::NoChange(_) => push_shown(text, at, " is no change"),
        Reason::NoEvent(_) => push_shown(text, at, " is no event"),
        Reason::NoSettings => text.extend_from_slice(b"settings are expected"),
        Reason::LateSettings => text.extend_from_slice(
            b"settings come once, before all changes and steps",
        ),
        Reason::NoVersion => push_shown(text, at, " is no version: 2"),
        Reason::NoNumber => push_field(
            alloc,
            text,
            false,
            fields,
            number,
            at,
            " is no number of 1 to 15 digits",
        ),
        Reason::Outside {
            number: value,
            most,
        } => push_not_within(alloc, text, false, fields, number, value, most),
        Reason::Fields(_) | Reason::StepFields => push_too_much(text, false, fields),
    }
}

/// Appends that a field's number is not within its limits.
pub(crate) fn push_not_within(
    alloc: Global,
    text: &mut Vec<u8>,
    plan: bool,
    fields: &Fields,
    number: usize,
    value: u64,
    most: u64,
) -> Result<(), AllocError>
    ensures { OnOk result (text.new.items ≡ text.old.items ++ named_text plan fields.now number (outside_text value most)) }
{
    push_named(alloc, text, plan, fields, number, b"")?;
    push_outside(text, value, most)
}
