ghost use Rattle.std.specs.Prelude.{◌≡◌, ℕ, ◌-◌, ◌<◌, ◌^◌, Some, length, IfOk};
ghost use Rattle.csv.specs.Records.{fields_of};
ghost use Rattle.pf_script.specs.Plan.Heading.{heading_fault};
ghost use Rattle.pf_plain_script.specs.Plain.{IsPlain, MakesPlain, ended, first_column, origin_at, plain, plain_behind, plain_from, start, with_heading};

use crate::origin::Origin;
use crate::writer::PlainWriter;
use csv::ByteRecord;
use pf_message::positions::Positions;
use pf_script::fields::Fields;
use pf_script::plan::fault::{BadRecord, RecordFault};
use pf_script::plan::heading::{heading_fault, is_plan_heading};
use pf_text::rows::rows::{NextRow, Rows};
use pf_vocabulary::names::titles::Titles;
use std::alloc::{AllocError, Global};

/// The script of version 2 that belongs to a plan, and what it does not tell.
#[derive(Drop)]
pub struct PlainScript {
    /// Its text: the heading, the settings in full, and each change and step, with tasks by number, and in place of a label the
    /// number that its insert was given, or 0 where that was refused.
    pub text: Vec<u8>,
    /// Of each record of the text the one that it comes from.
    pub origins: Vec<Origin>,
    /// The names of tasks, and how long a slot is.
    pub titles: Titles,
    /// The first record that is none of the script's, or that it lacks. The text ends there, in a record that no script has.
    pub bad: Option<BadRecord>,
    /// The number of the last record that was read.
    pub last: u64,
}

/// The script of version 2 that belongs to a text; `None` where the text is no plan.
///
/// # Errors
///
/// Where memory is refused.
pub fn plain_script(alloc: Global, bytes: &[u8]) -> Result<Option<PlainScript>, AllocError>
    ensures { IfOk result (λ made. MakesPlain made (plain bytes.now)) }
{
    let mut rows = Rows::new(alloc, bytes);
    let mut row = ByteRecord::new(alloc);
    let NextRow::Found(line) = rows.next(&mut row)? else {
        return Ok(None);
    };
    if !is_plan_heading(&Fields::new(&row)) {
        return Ok(None);
    }
    let mut positions = Positions::new(bytes);
    let made = write_under(alloc, rows, row, &mut positions, line)?;
    Ok(Some(made))
}

/// The record of a plan that has this number and begins on this line.
fn origin_at(positions: &mut Positions<'_>, number: u64, line: u64) -> Origin
    ensures origin { result ≡ origin_at (first_column positions.old) number line }
    ensures text { positions.new ≡ positions.old }
{
    Origin {
        number,
        line,
        column: positions.field(line, 1, true).column,
    }
}

/// Of a script whose heading was read into `row` and stands on a line, and whose other rows are left.
fn write_under(
    alloc: Global,
    rows: Rows,
    row: ByteRecord,
    positions: &mut Positions<'_>,
    line: u64,
) -> Result<PlainScript, AllocError>
    requires { length rows.rows < 2 ^ 64 - 3 }
    ensures { IfOk result (λ made. IsPlain made (with_heading (first_column positions.old) line
        (plain_behind (first_column positions.old) (heading_fault (fields_of row)) line rows.entry.end rows.entry.rows))) }
{
    match heading_fault(&Fields::new(&row)) {
        Some(fault) => write_bad(alloc, origin_at(positions, 1, line), fault),
        None => write_plain(alloc, rows, row, positions, line),
    }
}

/// Of a script whose heading has this fault and stands there.
fn write_bad(alloc: Global, origin: Origin, fault: RecordFault) -> Result<PlainScript, AllocError>
    ensures { (column : ℕ → ℕ) (line : ℕ) → origin ≡ origin_at column 1 line →
        IfOk result (λ made. IsPlain made (with_heading column line (ended start.progress origin (Some fault)))) }
{
    let writer = PlainWriter::new(alloc, origin)?;
    writer.stop(origin, fault)
}

/// Of a script whose heading stands on a line, and whose other rows are left. Each is read into `row`.
fn write_plain(
    alloc: Global,
    mut rows: Rows,
    mut row: ByteRecord,
    positions: &mut Positions<'_>,
    line: u64,
) -> Result<PlainScript, AllocError>
    requires { length rows.rows < 2 ^ 64 - 3 }
    ensures { IfOk result (λ made. IsPlain made (with_heading (first_column positions.old) line
        (plain_from (first_column positions.old) start 2 rows.entry.end rows.entry.rows))) }
{
    let mut writer = PlainWriter::new(alloc, origin_at(positions, 1, line))?;
    let mut number = 2;
    'rows: loop {
        let line = match rows.next(&mut row)? {
            NextRow::Found(line) => line,
            NextRow::End(line) => return writer.end(origin_at(positions, number, line)),
        };
        let origin = origin_at(positions, number, line);
        match writer.progress.read(&Fields::new(&row)) {
            Ok(said) => writer.take(said, origin)?,
            Err(fault) => return writer.stop(origin, fault),
        }
        number += 1;
    }
}
