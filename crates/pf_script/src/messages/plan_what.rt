ghost use Rattle.std.specs.Prelude.{◌≡◌, ◌++◌, OnOk, codes, true};
ghost use Rattle.std.specs.Fmt.{decimal};
ghost use Rattle.pf_script.specs.Messages.FieldTexts.{named_text};
ghost use Rattle.pf_script.specs.Messages.PlanTexts.{field_words, is_missing, is_of_order, named_already_text, owned_text, owner_text, reason_what, what_text};

use crate::fields::Fields;
use crate::messages::field_text::{
    push_field, push_missing, push_named, push_shown, push_too_much,
};
use crate::messages::what::push_not_within;
use crate::plan::fault::{Reason, RecordFault};
use pf_text::numbers::push_number;
use pf_text::quoted::push_quoted;
use pf_vocabulary::names::names::Names;
use std::alloc::{AllocError, Global};

/// Whether the record comes too early or too late.
fn is_of_order(reason: Reason) -> bool
    ensures { result ≡ is_of_order reason }
{
    matches!(
        reason,
        Reason::NoSettings | Reason::LateSettings | Reason::LateSlot
    )
}

/// Whether the field at fault is not there.
pub(crate) fn is_missing(fields: &Fields, fault: RecordFault) -> bool
    ensures { result ≡ is_missing fields.now fault }
{
    fields.len() < fault.field && !is_of_order(fault.reason)
}

/// Appends what is wrong with a bad record of a plan that has these fields, where the tasks have these names.
///
/// # Errors
///
/// Where memory is refused: the text is given up.
pub fn push_what(
    alloc: Global,
    text: &mut Vec<u8>,
    names: &Names,
    fields: &Fields,
    fault: RecordFault,
) -> Result<(), AllocError>
    ensures { OnOk result (text.new.items ≡ text.old.items ++ what_text names.now fields.now fault) }
{
    if is_missing(fields, fault) {
        return push_missing(alloc, text, true, fields, fault.field);
    }
    let at = fields.field(fault.field.saturating_sub(1));
    push_reason(alloc, text, names, fields, fault.field, at, fault.reason)
}

/// The same by the reason, where the field at fault is there.
#[tactic(auto, unfolding(crate::specs::Messages::PlanTexts::reason_what))]
fn push_reason(
    alloc: Global,
    text: &mut Vec<u8>,
    names: &Names,
    fields: &Fields,
    number: usize,
    at: &[u8],
    reason: Reason,
) -> Result<(), AllocError>
    ensures { OnOk result (text.new.items ≡ text.old.items ++ reason_what names.now fields.now number at.now reason) }
{
    match reason {
        Reason::NoRecord => push_shown(text, at, " is no record"),
        Reason::NoVersion => push_shown(text, at, " is no version: 1"),
        Reason::NoChange => push_shown(text, at, " is no change"),
        Reason::NoEvent => push_shown(text, at, " is no event"),
        Reason::NoSettings => text.extend_from_slice(b"settings are expected"),
        Reason::LateSettings => text.extend_from_slice(
            b"settings come once, before all changes and steps",
        ),
        Reason::LateSlot => text.extend_from_slice(
            b"slot comes once, before all changes and steps",
        ),
        Reason::Outside {
            number: value,
            most,
        } => push_not_within(alloc, text, true, fields, number, value, most),
        Reason::Fields(_) | Reason::JoinFields(_) | Reason::StepFields | Reason::SettingsFields =>
            push_too_much(text, true, fields),
        Reason::HasName(task) => push_has_name(alloc, text, names, fields, number, task),
        Reason::NameOf(task) => push_name_of(alloc, text, fields, number, at, task),
        _ => push_field(alloc, text, true, fields, number, at, field_words(reason)),
    }
}

/// What follows the value of a field that is none of what it has to be; nothing of any other reason.
fn field_words(reason: Reason) -> &'static str
    ensures { result.now ≡ field_words reason }
{
    match reason {
        Reason::NoNumber => " is no number of 1 to 15 digits",
        Reason::NoCap => " is neither full nor a number of 1 to 15 digits",
        Reason::NoUnit => " is no unit: ns, us, ms, s",
        Reason::NoName => " is no name: a letter, then up to 23 letters, digits, spaces, _ - . +",
        Reason::NoTask => " names no task so far",
        Reason::NoLabel => {
            " is no label: a letter, then up to 23 letters, digits, spaces, _ - . +"
        }
        Reason::LabelTaken => " labels an event already",
        Reason::LabelUnknown => " labels no event so far",
        _ => "",
    }
}

/// Appends that a task has a name already.
fn push_has_name(
    alloc: Global,
    text: &mut Vec<u8>,
    names: &Names,
    fields: &Fields,
    number: usize,
    task: u64,
) -> Result<(), AllocError>
    ensures { OnOk result (text.new.items ≡ text.old.items ++ named_text true fields.now number (named_already_text names.now task)) }
{
    push_named(alloc, text, true, fields, number, b"task ")?;
    push_number(text, task)?;
    text.extend_from_slice(b" is named ")?;
    if let Some(name) = names.of_task(task) {
        text.extend_from_slice(name.as_bytes())?;
    }
    text.extend_from_slice(b" already")
}

/// Appends that a field is the name of a task already.
fn push_name_of(
    alloc: Global,
    text: &mut Vec<u8>,
    fields: &Fields,
    number: usize,
    at: &[u8],
    task: u64,
) -> Result<(), AllocError>
    ensures { OnOk result (text.new.items ≡ text.old.items ++ named_text true fields.now number (owned_text at.now task)) }
{
    push_named(alloc, text, true, fields, number, b"")?;
    push_owned(text, at, task)
}

/// Appends a field in quotes, and that it is the name of a task.
fn push_owned(text: &mut Vec<u8>, at: &[u8], task: u64) -> Result<(), AllocError>
    ensures { OnOk result (text.new.items ≡ text.old.items ++ owned_text at.now task) }
{
    push_quoted(text, at)?;
    push_owner(text, task)
}

/// Appends that it is the name of a task.
fn push_owner(text: &mut Vec<u8>, task: u64) -> Result<(), AllocError>
    ensures { OnOk result (text.new.items ≡ text.old.items ++ owner_text task) }
{
    text.extend_from_slice(b" is the name of task ")?;
    push_already(text, task)
}

/// Appends a number, and that it is so already.
fn push_already(text: &mut Vec<u8>, task: u64) -> Result<(), AllocError>
    ensures { OnOk result (text.new.items ≡ text.old.items ++ (decimal task ++ codes " already")) }
{
    push_number(text, task)?;
    text.extend_from_slice(b" already")
}
