ghost use Rattle.std.specs.Prelude.{◌≡◌, ◌+◌, ◌<◌, ◌-◌, ◌^◌, Err, OnErr, OnOk, length};
ghost use Rattle.pf_vocabulary.specs.declared.fault.fault.Fault.TheVariants as why;
ghost use Rattle.pf_session.specs.Session.{behind_record};
ghost use Rattle.pf_session_lines.specs.Lines.{line_of};
ghost use Rattle.csv.specs.Records.{fields_of};
ghost use Rattle.pf_session_turns.specs.Opening.{IsTaken, IsTakenOne, behind_rows, ended, next};
ghost use Rattle.pf_script.specs.Plan.Parsing.{end_fault, said_at};

use csv::ByteRecord;
use pf_script::fields::Fields;
use pf_script::plan::said::Said;
use pf_session::session::Session;
use pf_session_lines::row_text::line_of;
use pf_text::rows::rows::{NextRow, Rows};
use pf_vocabulary::fault::fault::Fault;
use std::alloc::Global;

/// Takes rows of a plan, without answers, of which the first has this number. Each is read into `row`.
///
/// # Errors
///
/// `BadRecord` at the first that is none of the script's, or where there are no settings; `NoMemory` where memory is refused.
#[tactic(auto, using(crate::proofs::Rows::row_taken, crate::proofs::Rows::none_left))]
pub(crate) fn take_rows(
    alloc: Global,
    session: &mut Session,
    mut rows: Rows<'_>,
    mut row: ByteRecord,
    first: u64,
) -> Result<(), Fault>
    requires { first + length rows.rows < 2 ^ 64 - 1 }
    ensures { IsTaken (behind_rows session.old first rows.entry.rows) result session.new }
{
    let mut number = first;
    'rows: while let NextRow::Found(_line) = rows.next(&mut row)? {
        match take_record(alloc, session, &Fields::new(&row), number) {
            Ok(()) => number += 1,
            Err(fault) => return Err(fault),
        }
    }
    end_rows(session, number)
}

/// Takes the row that was read, and those that are left.
///
/// # Errors
///
/// Those of `take_rows`.
#[tactic(auto, using(crate::proofs::Rows::one_taken, crate::proofs::Rows::one_stopped))]
pub(crate) fn take_from(
    alloc: Global,
    session: &mut Session,
    rows: Rows<'_>,
    row: ByteRecord,
    number: u64,
) -> Result<(), Fault>
    requires { number + length rows.rows < 2 ^ 64 - 2 }
    ensures { IsTaken (next (λ t. behind_rows t (number + 1) rows.entry.rows) session.old number (fields_of row)
        (said_at session.old.course.progress (fields_of row))) result session.new }
{
    match take_record(alloc, session, &Fields::new(&row), number) {
        Ok(()) => take_rows(alloc, session, rows, row, number + 1),
        Err(fault) => Err(fault),
    }
}

/// Sees that a script that ends here, before the record of this number, has its settings.
fn end_rows(session: &Session, number: u64) -> Result<(), Fault>
    ensures { IsTaken (ended session.now number (end_fault session.now.course.progress)) result session.now }
{
    match session.progress().end_fault() {
        Some(_) => Err(Fault::BadRecord(number)),
        None => Ok(()),
    }
}

/// Takes the record of this number, which has these fields, without an answer.
///
/// # Errors
///
/// `BadRecord` where it is none of the script's, and `NoMemory` where memory is refused.
fn take_record(
    alloc: Global,
    session: &mut Session,
    fields: &Fields,
    number: u64,
) -> Result<(), Fault>
    ensures { IsTakenOne session.old number fields.now (said_at session.old.course.progress fields.now) result session.new }
{
    match session.progress().read(fields) {
        Ok(said) => take_said(alloc, session, said, fields),
        Err(_) => Err(Fault::BadRecord(number)),
    }
}

/// Takes what a record with these fields says.
///
/// # Errors
///
/// `NoMemory` where memory is refused.
fn take_said(alloc: Global, session: &mut Session, said: Said, fields: &Fields) -> Result<(), Fault>
    ensures ok { OnOk result (session.new ≡ behind_record session.old said (line_of fields.now)) }
    ensures err { OnErr result (result ≡ Err why.NoMemory) }
{
    let line = line_of(alloc, fields)?;
    match session.carry_out(said, &line) {
        Ok(()) => Ok(()),
        Err(_) => Err(Fault::NoMemory),
    }
}
