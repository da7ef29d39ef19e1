ghost use Rattle.std.specs.Prelude.{◌≡◌, IfOk};
ghost use Rattle.pf_script.specs.Messages.Hints.{begins_comment, has_comment, hint_text, is_at_end, is_count, is_of_plan, is_of_word, is_plans_own, is_reason_of_plan, is_task_or_event, is_value_of_plan, is_word_of_plan, kind_of, may_be_missing, reason_hint};

use crate::fault::{Reason, RecordFault};
use crate::fields::{Fields, is_same};
use crate::messages::form::{push_field_name, settings_form};
use crate::messages::kind::ScriptKind;
use crate::messages::near::{has_byte, is_plan_word, owned, word_hint};
use crate::messages::trimming::trimmed;
use crate::messages::what::is_missing;
use crate::messages::words::{change_words, event_words, record_words};
use crate::version::Version;
use pf_text::numbers::parse_number;
use pf_vocabulary::names::name::is_text;
use std::alloc::{AllocError, Global};

/// What is known beside a bad record.
#[derive(Clone, Copy)]
pub struct HintScope {
    /// Whether the text ends in quotes of the record.
    pub is_quote_open: bool,
    /// Whether a word or a name that is near is looked for.
    pub seeks_near: bool,
}

fn kind_of(version: Version) -> ScriptKind
    ensures { result ≡ kind_of version }
{
    match version {
        Version::First => ScriptKind::First,
        Version::Second => ScriptKind::Second,
    }
}

/// Whether the record has another number of fields.
fn is_count(reason: Reason) -> bool
    ensures { result ≡ is_count reason }
{
    matches!(reason, Reason::Fields(_) | Reason::StepFields)
}

/// Whether a word is at fault.
fn is_of_word(reason: Reason) -> bool
    ensures { result ≡ is_of_word reason }
{
    matches!(
        reason,
        Reason::NoRecord(_)
            | Reason::NoChange(_)
            | Reason::NoEvent(_)
            | Reason::NoSettings
            | Reason::LateSettings
    )
}

/// Whether the fault lies in the record's last field, or in how many there are.
pub(crate) fn is_at_end(count: bool, fields: &Fields, number: usize) -> bool
    ensures { result ≡ is_at_end count fields.now number }
{
    count || fields.len() <= number
}

/// Whether a field begins as a comment does.
pub(crate) fn begins_comment(at: &[u8]) -> bool
    ensures { result ≡ begins_comment at.now }
{
    at.starts_with(b"#")
}

/// Whether a comment stands in the field at fault, which is no word, or is the first one too much.
fn has_comment(at: &[u8], reason: Reason) -> bool
    ensures { result ≡ has_comment at.now reason }
{
    if is_of_word(reason) {
        return false;
    }
    if is_count(reason) {
        return begins_comment(at);
    }
    has_byte(b'#', at)
}

/// Whether a word is a plan's alone.
fn is_plans_own(word: &[u8]) -> bool
    ensures { result ≡ is_plans_own word.now }
{
    is_same(word, b"slot")
        || is_same(word, b"name")
        || is_same(word, b"label")
        || is_same(word, b"plan")
        || is_same(word, b"limit")
}

/// Whether a word would be right in a plan.
fn is_word_of_plan(at: &[u8]) -> bool
    ensures { result ≡ is_word_of_plan at.now }
{
    let word = trimmed(at);
    begins_comment(at) || is_plan_word(word) && (!is_same(word, at) || is_plans_own(word))
}

/// Whether a field of this name may be a name or a label in a plan.
fn is_task_or_event(name: &[u8]) -> bool
    ensures { result ≡ is_task_or_event name.now }
{
    is_same(name, b"TASK") || is_same(name, b"ID")
}

/// Whether a field of this name, which is no number, would be right in a plan.
fn is_value_of_plan(name: &[u8], at: &[u8]) -> bool
    ensures { result ≡ is_value_of_plan name.now at.now }
{
    parse_number(trimmed(at)).is_some()
        || is_task_or_event(name) && is_text(at)
        || is_same(name, b"CAP") && is_same(at, b"full")
}

/// Whether a field of this name may be left out in a plan.
fn may_be_missing(name: &[u8]) -> bool
    ensures { result ≡ may_be_missing name.now }
{
    is_same(name, b"CAP") || is_same(name, b"EVERY") || is_same(name, b"EARLY")
}

/// Whether a field that is there would be right in a plan.
fn is_reason_of_plan(name: &[u8], at: &[u8], reason: Reason) -> bool
    ensures { result ≡ is_reason_of_plan name.now at.now reason }
{
    match reason {
        Reason::NoRecord(_) | Reason::NoChange(_) | Reason::NoEvent(_) => is_word_of_plan(at),
        Reason::NoNumber => is_value_of_plan(name, at),
        _ => false,
    }
}

/// Whether the record would be right in a plan.
fn is_of_plan(fields: &Fields, name: &[u8], at: &[u8], fault: RecordFault) -> bool
    ensures { result ≡ is_of_plan fields.now name.now at.now fault }
{
    if is_missing(fields, fault) {
        may_be_missing(name)
    } else {
        is_reason_of_plan(name, at, fault.reason)
    }
}

/// What would be right in place of a bad record of version 1 or 2 that has these fields; nothing where nothing can be said.
#[tactic(auto, unfolding(crate::specs::Messages::Hints::hint_text))]
pub(crate) fn hint_text(
    alloc: Global,
    scope: HintScope,
    fields: &Fields,
    fault: RecordFault,
) -> Result<Vec<u8>, AllocError>
    ensures { IfOk result (λ text. text.items ≡ hint_text scope fields.now fault) }
{
    if scope.is_quote_open && is_at_end(is_count(fault.reason), fields, fault.field) {
        return owned(alloc, b"the quote that begins here is not closed");
    }
    let at = fields.field(fault.field.saturating_sub(1));
    if has_comment(at, fault.reason) {
        return owned(alloc, b"a comment has a line of its own");
    }
    let mut name = Vec::new(alloc);
    push_field_name(alloc, &mut name, false, fields, fault.field)?;
    if is_of_plan(fields, &name, at, fault) {
        return owned(
            alloc,
            b"in a plan this is right: let the first line be plan,1",
        );
    }
    reason_hint(alloc, scope.seeks_near, at, fault.reason)
}

/// The same by the reason alone.
#[tactic(auto, unfolding(crate::specs::Messages::Hints::reason_hint))]
fn reason_hint(alloc: Global, seeks: bool, at: &[u8], reason: Reason) -> Result<Vec<u8>, AllocError>
    ensures { IfOk result (λ text. text.items ≡ reason_hint seeks at.now reason) }
{
    match reason {
        Reason::NoRecord(version) => word_hint(alloc, seeks, at, record_words(kind_of(version))),
        Reason::NoChange(version) => word_hint(alloc, seeks, at, change_words(kind_of(version))),
        Reason::NoEvent(version) => word_hint(alloc, seeks, at, event_words(kind_of(version))),
        Reason::NoVersion => owned(alloc, b"a plan begins with plan,1"),
        Reason::NoSettings => owned(alloc, settings_form(false).as_bytes()),
        _ => Ok(Vec::new(alloc)),
    }
}
