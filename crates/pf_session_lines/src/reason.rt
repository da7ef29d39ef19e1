ghost use Rattle.std.specs.Prelude.{◌≡◌, ◌++◌, true, codes, map, IfOk, OnOk};
ghost use Rattle.std.specs.List.{flat_map};
ghost use Rattle.pf_script.specs.Messages.PlanHints.{hint_text};
ghost use Rattle.pf_session_lines.specs.Faults.{line_scope, reason_hint, reason_text, word_hint};
ghost use Rattle.pf_session_lines.specs.Words.{all_words, first_after, form_of, help_text, word_at, word_line};

use crate::bytes::Bytes;
use crate::fault::{LineFault, LineReason};
use crate::word::{Word, fields_after, first_after};
use pf_script::fields::Fields;
use pf_script::messages::field_text::push_shown;
use pf_script::messages::hint::HintScope;
use pf_script::messages::plan_hint::{hint_text, name_hint, near_or};
use pf_script::messages::plan_what::push_what;
use pf_script::messages::what::push_outside;
use pf_script::plan::fault::RecordFault;
use pf_script::plan::state::Progress;
use std::alloc::{AllocError, Global};

/// All words, those of records first.
const WORDS: &[&str] = &[
    "settings",
    "slot",
    "name",
    "join",
    "leave",
    "delay",
    "limit",
    "label",
    "alter",
    "strike",
    "strict",
    "step",
    "why",
    "fit",
    "undo",
    "redo",
    "save",
    "help",
    "quit",
    "schedule",
    "lags",
    "misses",
    "denials",
    "events",
    "script",
    "processors",
    "stats",
    "chart",
    "svg",
    "windows",
    "jobs",
    "load",
    "quanta",
    "report",
    "full",
    "trace",
    "html",
    "c",
];

/// The words.
fn all_words() -> &'static [&'static str]
    ensures { map (λ w. w.now) result.now ≡ all_words }
{
    WORDS
}

/// Why a line with these fields is bad, after what came before it.
///
/// # Errors
///
/// Where memory is refused.
pub(crate) fn fault_text(
    alloc: Global,
    progress: &Progress,
    fields: &Fields,
    fault: LineFault,
) -> Result<Bytes, AllocError>
    ensures { IfOk result (λ text. text ≡ reason_text progress.now fields.now fault.field fault.reason) }
{
    let mut text = Vec::new(alloc);
    push_reason(
        alloc,
        &mut text,
        progress,
        fields,
        fault.field,
        fault.reason,
    )?;
    Ok(Bytes::of(text))
}

#[tactic(auto, unfolding(crate::specs::Faults::reason_text))]
fn push_reason(
    alloc: Global,
    text: &mut Vec<u8>,
    progress: &Progress,
    fields: &Fields,
    number: usize,
    reason: LineReason,
) -> Result<(), AllocError>
    ensures { OnOk result (text.new.items ≡ text.old.items ++ reason_text progress.now fields.now number reason) }
{
    let at = fields.field(number.saturating_sub(1));
    match reason {
        LineReason::OfRecord(reason) => {
            let fault = RecordFault {
                field: number,
                reason,
            };
            push_what(alloc, text, &progress.names, fields, fault)
        }
        LineReason::NoWord => push_shown(text, at, " is no record and no word"),
        LineReason::NoSettings => text.extend_from_slice(b"settings are expected"),
        LineReason::Missing => push_missing(text, fields),
        LineReason::TooMuch => push_with_form(text, "a field too much: ", fields),
        LineReason::NoNumber => push_shown(text, at, " is no number of 1 to 15 digits"),
        LineReason::Outside {
            number: value,
            most,
        } => push_outside(text, value, most),
        LineReason::NoTask => push_shown(text, at, " names no task so far"),
    }
}

/// Appends the form of the word that stands in the first field.
fn push_form(text: &mut Vec<u8>, fields: &Fields) -> Result<(), AllocError>
    ensures { OnOk result (text.new.items ≡ text.old.items ++ form_of fields.now) }
{
    text.extend_from_slice(fields.field(0))?;
    text.extend_from_slice(fields_after(Word::at(fields)).as_bytes())
}

/// Appends a text, and that form.
fn push_with_form(text: &mut Vec<u8>, front: &str, fields: &Fields) -> Result<(), AllocError>
    ensures { OnOk result (text.new.items ≡ text.old.items ++ (front.now ++ form_of fields.now)) }
{
    text.extend_from_slice(front.as_bytes())?;
    push_form(text, fields)
}

/// Appends that a field of that word is missing.
fn push_missing(text: &mut Vec<u8>, fields: &Fields) -> Result<(), AllocError>
    ensures { OnOk result (text.new.items ≡ text.old.items ++ (first_after (word_at fields.now) ++ (codes " is missing: " ++ form_of fields.now))) }
{
    text.extend_from_slice(first_after(Word::at(fields)).as_bytes())?;
    push_with_form(text, " is missing: ", fields)
}

/// What would be right in place of a bad line with these fields, after what came before it; nothing where nothing can be said.
///
/// # Errors
///
/// Where memory is refused.
#[tactic(auto, unfolding(crate::specs::Faults::reason_hint))]
pub(crate) fn fault_hint(
    alloc: Global,
    progress: &Progress,
    fields: &Fields,
    fault: LineFault,
) -> Result<Vec<u8>, AllocError>
    ensures { IfOk result (λ hint. hint.items ≡ reason_hint progress.now fields.now fault.field fault.reason) }
{
    match fault.reason {
        LineReason::OfRecord(reason) => {
            let field = fault.field;
            record_hint(alloc, progress, fields, RecordFault { field, reason })
        }
        LineReason::NoWord => word_hint(alloc, fields),
        LineReason::NoTask => {
            let at = fields.field(fault.field.saturating_sub(1));
            name_hint(alloc, true, at, &progress.names, "")
        }
        _ => Ok(Vec::new(alloc)),
    }
}

/// What would be right in place of a bad record with these fields.
fn record_hint(
    alloc: Global,
    progress: &Progress,
    fields: &Fields,
    fault: RecordFault,
) -> Result<Vec<u8>, AllocError>
    ensures { IfOk result (λ hint. hint.items ≡ hint_text line_scope progress.now.names progress.now.labels fields.now fault) }
{
    // A quote that is open at the end of a line ends there.
    let scope = HintScope {
        is_quote_open: false,
        seeks_near: true,
    };
    let names = &progress.names;
    hint_text(alloc, scope, names, &progress.labels, fields, fault)
}

/// What would be right in place of a first field that is none: what others call it, the near one, or where all are told.
fn word_hint(alloc: Global, fields: &Fields) -> Result<Vec<u8>, AllocError>
    ensures { IfOk result (λ hint. hint.items ≡ word_hint fields.now) }
{
    if fields.is_word(0, b"bye") || fields.is_word(0, b"q") {
        return Vec::from_slice(alloc, b"quit");
    }
    if fields.is_word(0, b"h") {
        return Vec::from_slice(alloc, b"help");
    }
    near_or(
        alloc,
        true,
        fields.field(0),
        all_words(),
        "help lists the words",
    )
}

/// The words, a line each.
///
/// # Errors
///
/// Where memory is refused.
pub fn help(alloc: Global) -> Result<Vec<u8>, AllocError>
    ensures { IfOk result (λ text. text.items ≡ help_text) }
{
    let mut text = Vec::new(alloc);
    push_lines(&mut text, all_words())?;
    Ok(text)
}

/// Words, a line each.
fn push_lines(text: &mut Vec<u8>, words: &[&str]) -> Result<(), AllocError>
    ensures { OnOk result (text.new.items ≡ text.old.items ++ flat_map (λ w. word_line w.now) words.now) }
{
    for word in words {
        text.extend_from_slice(word.as_bytes())?;
        text.extend_from_slice(b"\n")?;
    }
    Ok(())
}
