ghost use Rattle.std.specs.Prelude.{◌≡◌, ◌++◌, ◌≤◌, length, IfOk, OnOk};
ghost use Rattle.csv.specs.Records.{fields_of};
ghost use Rattle.pf_message.specs.Form.{position_front};
ghost use Rattle.pf_script.specs.Check.Found.{Finds};
ghost use Rattle.pf_script.specs.Check.Reports.{fault_shown};
ghost use Rattle.pf_script.specs.Check.Files.{first_shown, first_text, has_record, kind_by, kind_message, kind_text, record_count, record_messages, script_messages, telling_of};
ghost use Rattle.pf_script.specs.Messages.Lines.{first_of, hint_if, plain_messages, plan_messages};
ghost use Rattle.pf_script.specs.PlanCheck.Checked.{faults as plan_faults, is_plan};
ghost use Rattle.pf_script.specs.Told.{faults};
ghost use Rattle.pf_stream.specs.Reading.{longest_script};
ghost use Rattle.pf_text.specs.Rows.Rows.{rows};

use crate::check::fault_lines::{FaultLines, push_message};
use crate::check::faults::{plain_faults, plan_faults};
use crate::check::file_kind::FileKind;
use crate::check::found::Found;
use crate::fault::ScriptFault;
use crate::fields::Fields;
use crate::messages::telling::{Message, Telling, hint_if};
use crate::plan::heading::is_plan_heading;
use crate::plan_check::plan_faults::PlanFaults;
use crate::reader::ScriptReader;
use crate::script::Script;
use csv::ByteRecord;
use pf_message::form::push_position_front;
use pf_message::position::Position;
use std::alloc::{AllocError, Global};

/// Whether a script is a plan.
fn begins_plan(alloc: Global, script: &[u8]) -> Result<bool, AllocError>
    ensures { IfOk result (λ plan. plan ≡ is_plan (rows script.now)) }
{
    let mut row = ByteRecord::new(alloc);
    let _faults = PlanFaults::new(alloc, script, &mut row)?;
    Ok(is_plan_heading(&Fields::new(&row)))
}

/// What a check finds in the records of a script of any version of this file; with hints, where they are asked for.
fn record_faults(
    alloc: Global,
    file: &[u8],
    script: &[u8],
    hints: bool,
) -> Result<Found, AllocError>
    requires { length script.now ≤ longest_script }
    ensures { IfOk result (Finds (record_count script.now) (record_messages (telling_of file.now hints script.now))) }
{
    let telling = Telling::new(alloc, file, script, hints);
    if begins_plan(alloc, script)? {
        plan_faults(alloc, telling, script)
    } else {
        plain_faults(alloc, telling, script)
    }
}

/// The message of the first fault of a plan.
fn first_of_plan(
    alloc: Global,
    mut telling: Telling,
    script: &[u8],
) -> Result<Option<Message>, AllocError>
    ensures { IfOk result (λ m. m ≡ first_of (plan_messages telling.entry (plan_faults (rows script.now)))) }
{
    let mut row = ByteRecord::new(alloc);
    let mut faults = PlanFaults::new(alloc, script, &mut row)?;
    let Some(bad) = faults.next(&mut row)? else {
        return Ok(None);
    };
    let message = telling.plan(faults.progress(), &Fields::new(&row), bad)?;
    Ok(Some(message))
}

/// The message of the first fault of a script of version 1 or 2.
fn first_of_plain(
    alloc: Global,
    mut telling: Telling,
    script: &[u8],
) -> Result<Option<Message>, AllocError>
    ensures { IfOk result (λ m. m ≡ first_of (plain_messages telling.entry (faults script.now))) }
{
    let mut reader = ScriptReader::new(alloc, script);
    let mut row = ByteRecord::new(alloc);
    'records: loop {
        match reader.next(&mut row) {
            Ok(Some(_)) => {}
            Ok(None) => return Ok(None),
            Err(ScriptFault::Bad(bad) | ScriptFault::Missing(bad)) => {
                let message = telling.plain(&Fields::new(&row), bad)?;
                return Ok(Some(message));
            }
            Err(ScriptFault::Memory) => return Err(AllocError),
        }
    }
}

/// The message of the first bad record of a script of any version.
fn first_of_records(
    alloc: Global,
    file: &[u8],
    script: &[u8],
    hints: bool,
) -> Result<Option<Message>, AllocError>
    ensures { IfOk result (λ m. m ≡ first_of (record_messages (telling_of file.now hints script.now))) }
{
    let telling = Telling::new(alloc, file, script, hints);
    if begins_plan(alloc, script)? {
        first_of_plan(alloc, telling, script)
    } else {
        first_of_plain(alloc, telling, script)
    }
}

/// Whether a script has a record.
#[tactic(auto, using(crate::proofs::CheckLemmas::Kinds::plan_has_record))]
fn has_record(alloc: Global, script: &[u8]) -> Result<bool, AllocError>
    ensures { IfOk result (λ some. some ≡ has_record script.now) }
{
    let mut row = ByteRecord::new(alloc);
    let _faults = PlanFaults::new(alloc, script, &mut row)?;
    if is_plan_heading(&Fields::new(&row)) {
        return Ok(true);
    }
    Script::new(alloc, script).next(&mut row)
}

/// What a file is whose first message this is.
fn kind_by(
    alloc: Global,
    script: &[u8],
    first: &Option<Message>,
) -> Result<Option<FileKind>, AllocError>
    ensures { IfOk result (λ kind. kind ≡ kind_by script.now (has_record script.now) first.now) }
{
    match first {
        Some(message) if message.number == 1 => {
            Ok(FileKind::of(script, has_record(alloc, script)?))
        }
        _ => Ok(None),
    }
}

/// The message that a file is of this kind.
#[tactic(auto, unfolding(crate::specs::Check::Files::kind_message))]
fn kind_message(
    alloc: Global,
    file: &[u8],
    hints: bool,
    kind: FileKind,
) -> Result<Message, AllocError>
    ensures { IfOk result (λ m. m ≡ kind_message file.now hints kind) }
{
    let what = kind_what(alloc, file, kind)?;
    let hint = hint_if(
        alloc,
        hints,
        Vec::from_slice(alloc, kind.hint().as_bytes())?,
    )?;
    Ok(Message {
        number: 1,
        lacks: false,
        what,
        hint,
    })
}

/// That a file is of this kind, at its first byte.
fn kind_what(alloc: Global, file: &[u8], kind: FileKind) -> Result<Vec<u8>, AllocError>
    ensures { IfOk result (λ text. text.items ≡ position_front file.now (record { line = 1; column = 1 }) ++ kind_text kind) }
{
    let mut text = Vec::new(alloc);
    push_position_front(&mut text, file, Position { line: 1, column: 1 })?;
    text.extend_from_slice(kind.text().as_bytes())?;
    Ok(text)
}

/// What a check finds in a script of any version of this file: the messages of its faults, or, where record 1 is bad or there is none,
/// what the file is that is no script; with hints, where they are asked for. Nothing is carried out.
///
/// # Errors
///
/// Where memory is refused.
#[tactic(auto, using(crate::proofs::CheckLemmas::Kinds::kind_found))]
pub fn find_faults(
    alloc: Global,
    file: &[u8],
    script: &[u8],
    hints: bool,
) -> Result<Found, AllocError>
    requires { length script.now ≤ longest_script }
    ensures { IfOk result (Finds (record_count script.now) (script_messages file.now hints script.now)) }
{
    let found = record_faults(alloc, file, script, hints)?;
    let first = first_of_records(alloc, file, script, hints)?;
    let Some(kind) = kind_by(alloc, script, &first)? else {
        return Ok(found);
    };
    let message = kind_message(alloc, file, hints, kind)?;
    let mut lines = FaultLines::new(alloc);
    lines.add(&message)?;
    Ok(Found {
        lines,
        records: found.records,
    })
}

/// The message that a check finds first in a script of any version of this file, as whole lines; nothing where there is none. With its
/// hint, where hints are asked for.
///
/// # Errors
///
/// Where memory is refused.
pub fn first_fault_text(
    alloc: Global,
    file: &[u8],
    script: &[u8],
    hints: bool,
) -> Result<Vec<u8>, AllocError>
    ensures { IfOk result (λ text. text.items ≡ first_text file.now hints script.now) }
{
    let first = first_of_records(alloc, file, script, hints)?;
    let mut text = Vec::new(alloc);
    match kind_by(alloc, script, &first)? {
        Some(kind) => push_message(&mut text, &kind_message(alloc, file, hints, kind)?)?,
        None => push_first(&mut text, &first)?,
    }
    Ok(text)
}

/// Appends the lines of a message, where there is one.
fn push_first(text: &mut Vec<u8>, first: &Option<Message>) -> Result<(), AllocError>
    ensures { OnOk result (text.new.items ≡ text.old.items ++ first_shown first.now) }
{
    match first {
        Some(message) => push_message(text, message),
        None => Ok(()),
    }
}
