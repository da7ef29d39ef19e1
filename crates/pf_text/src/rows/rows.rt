ghost use Rattle.std.specs.Prelude.{◌≡◌};
ghost use Rattle.csv.specs.Records.{fields_of};
ghost use Rattle.pf_text.specs.Rows.Rows.{is_blank};

use crate::rows::records::Records;
use crate::rows::row_lines::RowLines;
use csv::ByteRecord;
use std::alloc::{AllocError, Global};
use std::marker::Model;

/// What comes next of a text's rows.
#[derive(Clone, Copy)]
pub enum NextRow {
    /// A row, whose first byte lies on this line, counted from 1.
    Found(u64),
    /// No row: the text ends on this line.
    End(u64),
}

/// The rows of a text that are not read yet: records by CSV with comments from `#` to the next line feed, without the white space
/// at both ends of each field, but for records of one empty field. One of them is in memory at a time, in the record of the
/// caller's. Contracts see them as what is left: the rows, each with its line, and the line of the end.
#[derive(Drop)]
pub struct Rows<'a> {
    records: Records<'a>,
    lines: RowLines<'a>,
}

impl<'a> Model for Rows<'a> {
    ghost use Rattle.pf_text.specs.Rows.Rows.{Table};

    ghost Value = { Table };

    ghost use Rattle.pf_text.specs.Rows.Left.{lines_ahead};
    ghost use Rattle.pf_text.specs.Rows.Rows.{rows_of};

    ghost view = { λ r. rows_of (lines_ahead r.lines) r.records };
}

impl<'a> Rows<'a> {
    ghost use Rattle.std.specs.Prelude.{◌≡◌, ◌≤◌, ◌+◌, length, IfOk};
    ghost use Rattle.csv.specs.Records.{fields_of};
    ghost use Rattle.pf_text.specs.Rows.Rows.{TakesRow, rows};

    /// All rows of a text. A byte order mark before the first one is passed over, a second one is not.
    pub fn new(alloc: Global, text: &'a [u8]) -> Self
        ensures rows { result ≡ rows text.now }
        ensures few { length result.rows ≤ length text.now + 1 }
    {
        Rows {
            records: Records::new(alloc, text),
            lines: RowLines::new(text),
        }
    }

    /// The next row into `row`, and its line; or that there is none, and the line of the end.
    ///
    /// # Errors
    ///
    /// Where memory is refused. Nothing is then promised of a further call.
    pub fn next(&mut self, row: &mut ByteRecord) -> Result<NextRow, AllocError>
        ensures { IfOk result (λ next. TakesRow next (fields_of row.new) self.old self.new) }
    {
        'records: while self.records.next(row)? {
            let line = self.lines.next_line();
            if !is_blank(row) {
                return Ok(NextRow::Found(line));
            }
        }
        Ok(NextRow::End(self.lines.next_line()))
    }
}

/// Whether a record has nothing but one empty field.
fn is_blank(row: &ByteRecord) -> bool
    ensures { result ≡ is_blank (fields_of row.now) }
{
    if row.len() != 1 {
        return false;
    }
    match row.get(0) {
        Some(field) => field.is_empty(),
        None => false,
    }
}
