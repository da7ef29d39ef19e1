ghost use Rattle.std.specs.Prelude.{◌≡◌, ◌++◌, OnOk};
ghost use Rattle.pf_script.specs.Messages.FieldTexts.{missing_text, named_text, shown_text, too_much_text};

use crate::fields::Fields;
use crate::messages::form::{push_field_name, push_form};
use pf_text::quoted::push_quoted;
use std::alloc::{AllocError, Global};

/// Appends that a field, by its number from 1, is not there.
pub(crate) fn push_missing(
    alloc: Global,
    text: &mut Vec<u8>,
    plan: bool,
    fields: &Fields,
    number: usize,
) -> Result<(), AllocError>
    ensures { OnOk result (text.new.items ≡ text.old.items ++ missing_text plan fields.now number) }
{
    push_field_name(alloc, text, plan, fields, number)?;
    text.extend_from_slice(b" is missing: ")?;
    push_form(text, plan, fields)
}

/// Appends that there is a field too much.
pub(crate) fn push_too_much(
    text: &mut Vec<u8>,
    plan: bool,
    fields: &Fields,
) -> Result<(), AllocError>
    ensures { OnOk result (text.new.items ≡ text.old.items ++ too_much_text plan fields.now) }
{
    text.extend_from_slice(b"a field too much: ")?;
    push_form(text, plan, fields)
}

/// Appends the name of a field, by its number from 1, and what is wrong with it.
pub(crate) fn push_named(
    alloc: Global,
    text: &mut Vec<u8>,
    plan: bool,
    fields: &Fields,
    number: usize,
    why: &[u8],
) -> Result<(), AllocError>
    ensures { OnOk result (text.new.items ≡ text.old.items ++ named_text plan fields.now number why.now) }
{
    push_field_name(alloc, text, plan, fields, number)?;
    text.extend_from_slice(b": ")?;
    text.extend_from_slice(why)
}

/// Appends a field in quotes, and what is said of it.
///
/// # Errors
///
/// Where memory is refused: the text is given up.
pub fn push_shown(text: &mut Vec<u8>, at: &[u8], why: &str) -> Result<(), AllocError>
    ensures { OnOk result (text.new.items ≡ text.old.items ++ shown_text at.now why.now) }
{
    push_quoted(text, at)?;
    text.extend_from_slice(why.as_bytes())
}

/// Appends the name of a field, by its number from 1, the field in quotes, and what is said of it.
pub(crate) fn push_field(
    alloc: Global,
    text: &mut Vec<u8>,
    plan: bool,
    fields: &Fields,
    number: usize,
    at: &[u8],
    why: &str,
) -> Result<(), AllocError>
    ensures { OnOk result (text.new.items ≡ text.old.items ++ named_text plan fields.now number (shown_text at.now why.now)) }
{
    push_named(alloc, text, plan, fields, number, b"")?;
    push_shown(text, at, why)
}
