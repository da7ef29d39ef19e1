ghost use Rattle.std.specs.Prelude.{◌≡◌, ◌++◌, OnOk};
ghost use Rattle.pf_script.specs.Check.Reports.{count_text, fault_shown, field_text, outside_text, place_text, reason_text, report_line, report_text, event_words, change_words, totals_text};

use crate::fault::{BadRecord, Reason};
use crate::fields::Fields;
use crate::version::Version;
use pf_text::numbers::push_number;
use pf_text::quoted::push_quoted;
use std::alloc::AllocError;

/// Adds the line that tells of a bad record with these fields, with what is shown of the one that is at fault.
pub fn push_report(text: &mut Vec<u8>, fields: &Fields, bad: BadRecord) -> Result<(), AllocError>
    ensures { OnOk result (text.new.items ≡ text.old.items ++ report_text (fault_shown bad fields.now)) }
{
    let at = fields.field(bad.fault.field.saturating_sub(1));
    push_fault(text, at, bad)
}

/// Adds that line, with what is shown of these bytes.
#[tactic(auto, unfolding(crate::specs::Check::Reports::report_line))]
fn push_fault(text: &mut Vec<u8>, at: &[u8], bad: BadRecord) -> Result<(), AllocError>
    ensures { OnOk result (text.new.items ≡ text.old.items ++ report_line bad at.now) }
{
    push_place(text, bad.line, bad.number)?;
    push_field(text, bad.fault.field)?;
    text.extend_from_slice(b": ")?;
    push_reason(text, at, bad.fault.reason)?;
    text.extend_from_slice(b"\n")
}

/// Adds the line and the number of a record.
pub fn push_place(text: &mut Vec<u8>, line: u64, number: u64) -> Result<(), AllocError>
    ensures { OnOk result (text.new.items ≡ text.old.items ++ place_text line number) }
{
    text.extend_from_slice(b"line ")?;
    push_number(text, line)?;
    text.extend_from_slice(b", record ")?;
    push_number(text, number)
}

/// Adds the line that counts records and faults.
pub fn push_totals(text: &mut Vec<u8>, records: u64, faults: u64) -> Result<(), AllocError>
    ensures { OnOk result (text.new.items ≡ text.old.items ++ totals_text records faults) }
{
    push_number(text, records)?;
    text.extend_from_slice(b" records, ")?;
    push_number(text, faults)?;
    text.extend_from_slice(b" faults\n")
}

/// Which field is at fault, where it is not the one that names the record.
pub fn push_field(text: &mut Vec<u8>, field: usize) -> Result<(), AllocError>
    ensures { OnOk result (text.new.items ≡ text.old.items ++ field_text field) }
{
    if field == 1 {
        return Ok(());
    }
    text.extend_from_slice(b", field ")?;
    push_number(text, field as u64)
}

/// Why the record is none.
#[tactic(auto, unfolding(crate::specs::Check::Reports::reason_text))]
fn push_reason(text: &mut Vec<u8>, at: &[u8], reason: Reason) -> Result<(), AllocError>
    ensures { OnOk result (text.new.items ≡ text.old.items ++ reason_text at.now reason) }
{
    match reason {
        Reason::NoRecord(version) => {
            push_quoted(text, at)?;
            text.extend_from_slice(b" is no record: settings, ")?;
            push_change_words(text, version)?;
            text.extend_from_slice(b", strict, step")
        }
        Reason::NoChange(version) => {
            push_quoted(text, at)?;
            text.extend_from_slice(b" is no change: ")?;
            push_change_words(text, version)
        }
        Reason::NoEvent(version) => {
            push_quoted(text, at)?;
            text.extend_from_slice(b" is no event: ")?;
            text.extend_from_slice(event_words(version).as_bytes())
        }
        Reason::NoSettings => text.extend_from_slice(b"settings are expected"),
        Reason::LateSettings => text.extend_from_slice(
            b"settings come once, before all changes and steps",
        ),
        Reason::NoVersion => {
            push_quoted(text, at)?;
            text.extend_from_slice(b" is no version: 2")
        }
        Reason::NoNumber => {
            push_quoted(text, at)?;
            text.extend_from_slice(b" is no number of 1 to 15 digits")
        }
        Reason::Outside { number, most } => push_outside(text, number, most),
        Reason::Fields(count) => push_count(text, count),
        Reason::StepFields => text.extend_from_slice(b"1 or 2 fields are expected"),
    }
}

/// That a number is not within its limits.
pub fn push_outside(text: &mut Vec<u8>, number: u64, most: u64) -> Result<(), AllocError>
    ensures { OnOk result (text.new.items ≡ text.old.items ++ outside_text number most) }
{
    push_number(text, number)?;
    text.extend_from_slice(b" is not within 1 to ")?;
    push_number(text, most)
}

/// That a record has another number of fields than this.
pub fn push_count(text: &mut Vec<u8>, count: usize) -> Result<(), AllocError>
    ensures { OnOk result (text.new.items ≡ text.old.items ++ count_text count) }
{
    push_number(text, count as u64)?;
    text.extend_from_slice(b" fields are expected")
}

/// The words of the changes.
fn push_change_words(text: &mut Vec<u8>, version: Version) -> Result<(), AllocError>
    ensures { OnOk result (text.new.items ≡ text.old.items ++ change_words version) }
{
    text.extend_from_slice(event_words(version).as_bytes())?;
    text.extend_from_slice(b", alter, strike")
}

/// The words of the events.
fn event_words(version: Version) -> &'static str
    ensures { result.now ≡ event_words version }
{
    match version {
        Version::First => "join, leave, delay",
        Version::Second => "join, leave, delay, limit",
    }
}
