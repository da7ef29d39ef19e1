ghost use Rattle.std.specs.Prelude.{◌≡◌, ◌++◌, IfOk, OnOk, codes, map};
ghost use Rattle.std.specs.Fmt.{decimal};
ghost use Rattle.std.specs.List.{list_all, list_any};
ghost use Rattle.pf_vocabulary.specs.Names.Text.{is_text_byte};
ghost use Rattle.pf_script.specs.Messages.PlanHints.{has_comment, hint_text, is_above_ascii, is_count, is_long_text, is_of_word, label_texts, length_hint, name_texts, near_or, reason_hint, text_hint, unit_words};

use crate::fields::Fields;
use crate::messages::form::settings_form;
use crate::messages::hint::{HintScope, begins_comment, is_at_end};
use crate::messages::kind::ScriptKind;
use crate::messages::near::{has_byte, owned, word_hint};
use crate::messages::words::{change_words, event_words, record_words};
use crate::plan::fault::{Reason, RecordFault};
use crate::plan::labels::Labels;
use pf_message::nearness::near_name;
use pf_text::numbers::push_number;
use pf_vocabulary::names::name::is_letter_first;
use pf_vocabulary::names::names::Names;
use std::alloc::{AllocError, Global};

/// The bytes of the longest name.
const LONGEST_NAME: usize = 24;

/// Whether the record has another number of fields.
fn is_count(reason: Reason) -> bool
    ensures { result ≡ is_count reason }
{
    matches!(
        reason,
        Reason::Fields(_) | Reason::JoinFields(_) | Reason::StepFields | Reason::SettingsFields
    )
}

/// Whether a word is at fault, or where it stands.
fn is_of_word(reason: Reason) -> bool
    ensures { result ≡ is_of_word reason }
{
    matches!(
        reason,
        Reason::NoRecord
            | Reason::NoChange
            | Reason::NoEvent
            | Reason::NoSettings
            | Reason::LateSettings
            | Reason::LateSlot
    )
}

/// Whether a comment stands in the field at fault, which is no word, or is the first one too much.
fn has_comment(at: &[u8], reason: Reason) -> bool
    ensures { result ≡ has_comment at.now reason }
{
    if is_of_word(reason) {
        return false;
    }
    if is_count(reason) {
        return begins_comment(at);
    }
    has_byte(b'#', at)
}

/// The one of some names that is near to a field, where that is sought, or else `other`.
///
/// # Errors
///
/// Where memory is refused.
pub fn near_or(
    alloc: Global,
    seeks: bool,
    at: &[u8],
    names: &[&str],
    other: &str,
) -> Result<Vec<u8>, AllocError>
    ensures { IfOk result (λ text. text.items ≡ near_or seeks at.now (map (λ n. n.now) names.now) other.now) }
{
    if seeks {
        if let Some(name) = near_name(alloc, at, names)? {
            return owned(alloc, name.as_bytes());
        }
    }
    owned(alloc, other.as_bytes())
}

/// The units of time.
fn unit_words() -> &'static [&'static str]
    ensures { map (λ w. w.now) result.now ≡ unit_words }
{
    &["ns", "us", "ms", "s"]
}

/// The name of a task that is near to a field, where that is sought, or else `other`.
///
/// # Errors
///
/// Where memory is refused.
pub fn name_hint(
    alloc: Global,
    seeks: bool,
    at: &[u8],
    names: &Names,
    other: &str,
) -> Result<Vec<u8>, AllocError>
    ensures { IfOk result (λ text. text.items ≡ near_or seeks at.now (name_texts names.now) other.now) }
{
    let mut texts = Vec::new(alloc);
    for named in names.all() {
        texts.push(named.name.as_str())?;
    }
    near_or(alloc, seeks, at, &texts, other)
}

/// The label that is near to a field, or else how one is given.
fn label_hint(alloc: Global, seeks: bool, at: &[u8], labels: &Labels) -> Result<Vec<u8>, AllocError>
    ensures { IfOk result (λ text. text.items ≡ near_or seeks at.now (label_texts labels.now) (codes "a label is given by label,TEXT,EVENT, in a line before")) }
{
    let mut texts = Vec::new(alloc);
    for labelled in labels.all() {
        texts.push(labelled.name.as_str())?;
    }
    near_or(
        alloc,
        seeks,
        at,
        &texts,
        "a label is given by label,TEXT,EVENT, in a line before",
    )
}

/// Whether a name may have this byte.
fn is_text_byte(byte: u8) -> bool
    ensures { result ≡ is_text_byte byte }
{
    byte.is_ascii_alphanumeric() || matches!(byte, b'_' | b'-' | b'.' | b'+' | b' ')
}

/// Whether a name may have these bytes.
fn has_text_bytes(at: &[u8]) -> bool
    ensures { result ≡ list_all is_text_byte at.now }
{
    at.iter().all(|byte| is_text_byte(*byte))
}

/// Whether a field is a name but for its length.
fn is_long_text(at: &[u8]) -> bool
    ensures { result ≡ is_long_text at.now }
{
    at.len() > LONGEST_NAME && is_letter_first(at) && has_text_bytes(at) && !at.ends_with(b" ")
}

/// Whether one of these bytes is above 126.
fn has_above_ascii(at: &[u8]) -> bool
    ensures { result ≡ list_any is_above_ascii at.now }
{
    for byte in at {
        if *byte > 126 {
            return true;
        }
    }
    false
}

/// How long a name is that is too long.
#[tactic(auto, unfolding(crate::specs::Messages::PlanHints::length_hint))]
fn length_hint(alloc: Global, count: usize) -> Result<Vec<u8>, AllocError>
    ensures { IfOk result (λ text. text.items ≡ length_hint count) }
{
    let mut text = owned(alloc, b"it has ")?;
    push_bytes_of(&mut text, count)?;
    Ok(text)
}

/// Appends so many bytes, and how many are the most.
fn push_bytes_of(text: &mut Vec<u8>, count: usize) -> Result<(), AllocError>
    ensures { OnOk result (text.new.items ≡ text.old.items ++ (decimal count ++ codes " bytes, and 24 are the most")) }
{
    push_number(text, count as u64)?;
    text.extend_from_slice(b" bytes, and 24 are the most")
}

/// What would be right in place of what is no name and no label.
fn text_hint(alloc: Global, at: &[u8]) -> Result<Vec<u8>, AllocError>
    ensures { IfOk result (λ text. text.items ≡ text_hint at.now) }
{
    if is_long_text(at) {
        return length_hint(alloc, at.len());
    }
    if has_above_ascii(at) {
        return owned(alloc, b"letters are A to Z and a to z");
    }
    Ok(Vec::new(alloc))
}

/// What would be right in place of a bad record of a plan that has these fields, where tasks have these names and events these labels;
/// nothing where nothing can be said.
///
/// # Errors
///
/// Where memory is refused.
#[tactic(auto, unfolding(crate::specs::Messages::PlanHints::hint_text))]
pub fn hint_text(
    alloc: Global,
    scope: HintScope,
    names: &Names,
    labels: &Labels,
    fields: &Fields,
    fault: RecordFault,
) -> Result<Vec<u8>, AllocError>
    ensures { IfOk result (λ text. text.items ≡ hint_text scope names.now labels.now fields.now fault) }
{
    if scope.is_quote_open && is_at_end(is_count(fault.reason), fields, fault.field) {
        return owned(alloc, b"the quote that begins here is not closed");
    }
    let at = fields.field(fault.field.saturating_sub(1));
    if has_comment(at, fault.reason) {
        return owned(alloc, b"a comment has a line of its own");
    }
    reason_hint(alloc, scope.seeks_near, names, labels, at, fault.reason)
}

/// The same by the reason alone.
#[tactic(auto, unfolding(crate::specs::Messages::PlanHints::reason_hint))]
fn reason_hint(
    alloc: Global,
    seeks: bool,
    names: &Names,
    labels: &Labels,
    at: &[u8],
    reason: Reason,
) -> Result<Vec<u8>, AllocError>
    ensures { IfOk result (λ text. text.items ≡ reason_hint seeks names.now labels.now at.now reason) }
{
    match reason {
        Reason::NoRecord => word_hint(alloc, seeks, at, record_words(ScriptKind::Plan)),
        Reason::NoChange => word_hint(alloc, seeks, at, change_words(ScriptKind::Plan)),
        Reason::NoEvent => word_hint(alloc, seeks, at, event_words(ScriptKind::Plan)),
        Reason::NoVersion => owned(alloc, b"a plan begins with plan,1"),
        Reason::NoSettings => owned(alloc, settings_form(true).as_bytes()),
        Reason::NoUnit => near_or(alloc, seeks, at, unit_words(), ""),
        Reason::NoTask => name_hint(
            alloc,
            seeks,
            at,
            names,
            "a name is given by name,TASK,TEXT, in a line before",
        ),
        Reason::LabelUnknown => label_hint(alloc, seeks, at, labels),
        Reason::NoName | Reason::NoLabel => text_hint(alloc, at),
        _ => Ok(Vec::new(alloc)),
    }
}
