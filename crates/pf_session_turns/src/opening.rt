ghost use Rattle.std.specs.Prelude.{◌≡◌, ◌+◌, ◌<◌, ◌-◌, ◌^◌, ◌∷◌, [], length, false, None, OnOk, IfErr};
ghost use Rattle.csv.specs.Records.{fields_of};
ghost use Rattle.pf_script_run.specs.Carried.{Stops};
ghost use Rattle.pf_script.specs.Told.{LinesTold, told};
ghost use Rattle.pf_script.specs.Plan.Heading.{heading_fault};
ghost use Rattle.pf_session_turns.specs.Opening.{IsOpened, IsTaken, behind_rows, opened, opened_plain, opened_plan, opened_rows};

use crate::in_rows::{take_from, take_rows};
use csv::ByteRecord;
use pf_answers::manner::Manner;
use pf_script::fields::Fields;
use pf_script::line_reader::LineReader;
use pf_script::opened::OpenedScript;
use pf_script::plan::heading::{heading_fault, is_plan_heading};
use pf_session::session::Session;
use pf_text::rows::rows::{NextRow, Rows};
use pf_vocabulary::fault::fault::Fault;
use std::alloc::Global;

/// A session that begins with the records of a script of any version, without answers. Those of versions 1 and 2 are read by the rules
/// of their version, and then stand after the heading of a plan.
///
/// # Errors
///
/// `BadRecord` at the first record that is none of the script's, and `NoMemory` where memory is refused.
pub fn open_script(alloc: Global, manner: Manner, script: &[u8]) -> Result<Session, Fault>
    ensures { IsOpened (opened manner script.now) result }
{
    let session = Session::new(alloc, manner)?;
    let mut rows = Rows::new(alloc, script);
    let mut row = ByteRecord::new(alloc);
    match rows.next(&mut row)? {
        NextRow::Found(_) => open_rows(alloc, session, script, rows, row),
        NextRow::End(_) => open_none(alloc, session, script),
    }
}

/// The session after a script without a row, which lacks its settings.
fn open_none(alloc: Global, session: Session, script: &[u8]) -> Result<Session, Fault>
    requires { session.course.progress.opened ≡ false }
    ensures { IsOpened (opened_plain session [] (told script.now).rest.fault) result }
{
    match check_plain(alloc, script) {
        Ok(()) => Err(Fault::BadRecord(1)),
        Err(fault) => Err(fault),
    }
}

/// The session after the row that was read, and those that are left.
#[tactic(auto, using(crate::proofs::Stops::stopped_plain))]
fn open_rows(
    alloc: Global,
    session: Session,
    script: &[u8],
    rows: Rows<'_>,
    row: ByteRecord,
) -> Result<Session, Fault>
    requires { length rows.rows < 2 ^ 64 - 9 }
    ensures { IsOpened (opened_rows session script.now (record { line = 0; fields = fields_of row } ∷ rows.entry.rows)) result }
{
    if is_plan_heading(&Fields::new(&row)) {
        return open_under(alloc, session, rows, row);
    }
    match check_plain(alloc, script) {
        Ok(()) => open_plain(alloc, session, rows, row),
        Err(fault) => Err(fault),
    }
}

/// The session after a plan, whose heading was read.
fn open_under(
    alloc: Global,
    session: Session,
    rows: Rows<'_>,
    row: ByteRecord,
) -> Result<Session, Fault>
    requires { length rows.rows < 2 ^ 64 - 9 }
    ensures { IsOpened (opened_plan session (heading_fault (fields_of row)) rows.entry.rows) result }
{
    match heading_fault(&Fields::new(&row)) {
        Some(_) => Err(Fault::BadRecord(1)),
        None => open_plan(alloc, session, rows, row),
    }
}

/// The session after the rows that a plan has after its heading.
#[tactic(auto, using(crate::proofs::Rows::taken_opened))]
fn open_plan(
    alloc: Global,
    mut session: Session,
    rows: Rows<'_>,
    row: ByteRecord,
) -> Result<Session, Fault>
    requires { length rows.rows < 2 ^ 64 - 9 }
    ensures { IsOpened (behind_rows (record session { is_first = false }) 2 rows.entry.rows) result }
{
    session.take_heading(&mut Vec::new(alloc))?;
    match take_rows(alloc, &mut session, rows, row, 2) {
        Ok(()) => Ok(session),
        Err(fault) => Err(fault),
    }
}

/// The session after the rows of a script of version 1 or 2, of which one was read; a heading is passed over.
#[tactic(auto, using(crate::proofs::Rows::taken_opened))]
fn open_plain(
    alloc: Global,
    mut session: Session,
    rows: Rows<'_>,
    row: ByteRecord,
) -> Result<Session, Fault>
    requires { length rows.rows < 2 ^ 64 - 9 }
    ensures { IsOpened (opened_plain session (record { line = 0; fields = fields_of row } ∷ rows.entry.rows) None) result }
{
    match take_plain(alloc, &mut session, rows, row) {
        Ok(()) => Ok(session),
        Err(fault) => Err(fault),
    }
}

/// Takes these rows, and the one that was read where it is no heading.
fn take_plain(
    alloc: Global,
    session: &mut Session,
    rows: Rows<'_>,
    row: ByteRecord,
) -> Result<(), Fault>
    requires { length rows.rows < 2 ^ 64 - 9 }
    ensures { IsTaken (opened_plain session.old (record { line = 0; fields = fields_of row } ∷ rows.entry.rows) None) result session.new }
{
    if Fields::new(&row).is_word(0, b"pfair") {
        return take_rows(alloc, session, rows, row, 1);
    }
    take_from(alloc, session, rows, row, 1)
}

/// Sees that a script of version 1 or 2 has no bad record.
///
/// # Errors
///
/// `BadRecord` at the first one, and `NoMemory` where memory is refused.
fn check_plain(alloc: Global, script: &[u8]) -> Result<(), Fault>
    ensures whole { OnOk result ((told script.now).rest.fault ≡ None) }
    ensures stopped { IfErr result (Stops (told script.now).rest.fault) }
{
    let mut row = ByteRecord::new(alloc);
    let opened = OpenedScript::open(alloc, script, &mut row)?;
    check_lines(opened.lines, row)
}

/// Sees that these lines have no bad record. Each is read into `row`.
fn check_lines(mut lines: LineReader<'_>, mut row: ByteRecord) -> Result<(), Fault>
    ensures whole { OnOk result (lines.entry.fault ≡ None) }
    ensures stopped { IfErr result (Stops lines.entry.fault) }
{
    'lines: while let Some(_told) = lines.next(&mut row)? {}
    Ok(())
}
