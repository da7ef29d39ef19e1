ghost use Rattle.std.specs.Prelude.{◌≡◌, [], IfOk, codes};
ghost use Rattle.std.specs.Str.Lines.{strip_carriage_return};
ghost use Rattle.pf_session_lines.specs.Faults.{line_reason};
ghost use Rattle.pf_session_lines.specs.Heard.{bad, has_escape, heard, heard_asked, heard_fields, heard_record, heard_within, heard_word, is_heading};
ghost use Rattle.pf_session_lines.specs.declared.heard.Heard.TheVariants.{Bad};

use crate::ask::ask;
use crate::asked::Asked;
use crate::bytes::Bytes;
use crate::fault::{LineFault, LineReason};
use crate::heard::Heard;
use crate::reason::{fault_hint, fault_text};
use crate::row_text::{line_of, row_text};
use crate::word::Word;
use csv::ByteRecord;
use pf_script::fields::Fields;
use pf_script::plan::fault::{Reason, RecordFault};
use pf_script::plan::heading::{heading_fault, is_plan_heading};
use pf_script::plan::said::Said;
use pf_script::plan::state::Progress;
use pf_text::rows::rows::{NextRow, Rows};
use std::alloc::{AllocError, Global};

/// The most bytes that a line may have, without its end.
pub const LONGEST_LINE: usize = 65_536;

/// What a line is after what came before it, without its line feed; a carriage return at its end is no part of it. `is_first`: no
/// record was good so far, so the heading may come.
///
/// # Errors
///
/// Where memory is refused.
pub fn hear(
    alloc: Global,
    is_first: bool,
    progress: &Progress,
    line: &[u8],
) -> Result<Heard, AllocError>
    ensures { IfOk result (λ h. h ≡ heard is_first progress.now line.now) }
{
    hear_within(alloc, is_first, progress, without_return(line))
}

/// The line without the carriage return that may stand at its end.
fn without_return(line: &[u8]) -> &[u8]
    ensures { result.now ≡ strip_carriage_return line.now }
{
    match line {
        [front @ .., b'\r'] => front,
        _ => line,
    }
}

/// What a line is without its end.
fn hear_within(
    alloc: Global,
    is_first: bool,
    progress: &Progress,
    line: &[u8],
) -> Result<Heard, AllocError>
    ensures { IfOk result (λ h. h ≡ heard_within is_first progress.now line.now) }
{
    if line.len() > LONGEST_LINE {
        return bad_line(alloc, b"it has more than 65536 bytes");
    }
    if line == b"step".as_slice() {
        return hear_step(alloc, is_first, progress);
    }
    let text = row_text(alloc, line)?;
    let mut rows = Rows::new(alloc, &text);
    let mut row = ByteRecord::new(alloc);
    match rows.next(&mut row)? {
        NextRow::Found(_) if has_escape(line) => {
            bad_line(alloc, b"no line editing here: rlwrap pfair desk")
        }
        NextRow::Found(_) => hear_fields(alloc, is_first, progress, &Fields::new(&row)),
        NextRow::End(_) => Ok(Heard::Nothing),
    }
}

/// A line that is bad as a whole.
fn bad_line(alloc: Global, text: &[u8]) -> Result<Heard, AllocError>
    ensures { IfOk result (λ h. h ≡ Bad 0 text.now []) }
{
    Ok(Heard::Bad {
        field: 0,
        text: Bytes::copy(alloc, text)?,
        hint: Bytes::of(Vec::new(alloc)),
    })
}

/// Whether a line has the byte that begins what an arrow key leaves.
fn has_escape(line: &[u8]) -> bool
    ensures { result ≡ has_escape line.now }
{
    line.contains(&27)
}

/// What the line is that steps a slot. Its row has one field, and is made without a reader of CSV: to make one takes ten times as
/// long as a step.
#[tactic(auto, using(crate::proofs::Stepped::step_fields))]
fn hear_step(alloc: Global, is_first: bool, progress: &Progress) -> Result<Heard, AllocError>
    ensures { IfOk result (λ h. h ≡ heard_within is_first progress.now (codes "step")) }
{
    let mut row = ByteRecord::new(alloc);
    row.push_field(b"step")?;
    hear_fields(alloc, is_first, progress, &Fields::new(&row))
}

/// What a line with these fields is.
fn hear_fields(
    alloc: Global,
    is_first: bool,
    progress: &Progress,
    fields: &Fields,
) -> Result<Heard, AllocError>
    ensures { IfOk result (λ h. h ≡ heard_fields is_first progress.now fields.now) }
{
    if is_first && is_heading(fields) {
        return Ok(Heard::Heading);
    }
    match Word::at(fields) {
        Some(word) => hear_word(alloc, progress, fields, ask(progress, word, fields)),
        None => hear_record(alloc, progress, fields, progress.read(fields)),
    }
}

/// Whether a record is the heading `plan,1`.
fn is_heading(fields: &Fields) -> bool
    ensures { result ≡ is_heading fields.now }
{
    is_plan_heading(fields) && heading_fault(fields).is_none()
}

/// A word with these fields.
fn hear_word(
    alloc: Global,
    progress: &Progress,
    fields: &Fields,
    asked: Result<Asked, LineFault>,
) -> Result<Heard, AllocError>
    ensures { IfOk result (λ h. h ≡ heard_word progress.now fields.now asked) }
{
    match asked {
        Ok(asked) => hear_asked(alloc, fields, asked),
        Err(fault) => hear_bad(alloc, progress, fields, fault),
    }
}

/// What a word with these fields asks for.
fn hear_asked(alloc: Global, fields: &Fields, asked: Asked) -> Result<Heard, AllocError>
    ensures { IfOk result (λ h. h ≡ heard_asked fields.now asked) }
{
    match asked {
        Asked::Shown(wanted) => Ok(Heard::Shown(wanted)),
        Asked::Reverse(reversal) => Ok(Heard::Reverse(reversal)),
        Asked::Save => Ok(Heard::Save(Bytes::copy(alloc, fields.field(1))?)),
        Asked::Help => Ok(Heard::Help),
        Asked::Quit => Ok(Heard::Quit),
    }
}

/// A record with these fields.
fn hear_record(
    alloc: Global,
    progress: &Progress,
    fields: &Fields,
    read: Result<Said, RecordFault>,
) -> Result<Heard, AllocError>
    ensures { IfOk result (λ h. h ≡ heard_record progress.now fields.now read) }
{
    match read {
        Ok(said) => Ok(Heard::Record(said, Bytes::of(line_of(alloc, fields)?))),
        Err(fault) => {
            let RecordFault { field, reason } = fault;
            let reason = line_reason(reason);
            hear_bad(alloc, progress, fields, LineFault { field, reason })
        }
    }
}

/// Why a line is bad whose record is.
fn line_reason(reason: Reason) -> LineReason
    ensures { result ≡ line_reason reason }
{
    match reason {
        Reason::NoRecord => LineReason::NoWord,
        _ => LineReason::OfRecord(reason),
    }
}

/// A bad line with these fields.
fn hear_bad(
    alloc: Global,
    progress: &Progress,
    fields: &Fields,
    fault: LineFault,
) -> Result<Heard, AllocError>
    ensures { IfOk result (λ h. h ≡ bad progress.now fields.now fault) }
{
    let hint = Bytes::of(fault_hint(alloc, progress, fields, fault)?);
    Ok(Heard::Bad {
        field: fault.field as u64,
        text: fault_text(alloc, progress, fields, fault)?,
        hint,
    })
}
