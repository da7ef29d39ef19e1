ghost use Rattle.std.specs.Prelude.{◌≡◌, ◌==◌, IfOk, map};
ghost use Rattle.std.specs.List.{slice_split};
ghost use Rattle.csv.specs.Records.{fields_of};
ghost use Rattle.pf_convert.specs.List.Kind.{heads_list, is_list, names_columns, parts_at};

use crate::list::column::Column;
use crate::list::heading::field_of;
use csv::ByteRecord;
use pf_text::rows::rows::{NextRow, Rows};
use std::alloc::{AllocError, Global};

/// Whether a text is a list of tasks, and no script or plan: its first row heads one, also where semicolons or tabs part its columns
/// in place of commas.
///
/// # Errors
///
/// Where memory is refused.
pub fn is_list(alloc: Global, text: &[u8]) -> Result<bool, AllocError>
    ensures { IfOk result (λ is. is ≡ is_list text.now) }
{
    let mut row = ByteRecord::new(alloc);
    match Rows::new(alloc, text).next(&mut row)? {
        NextRow::Found(_) => heads_list(alloc, &row),
        NextRow::End(_) => Ok(false),
    }
}

/// Whether a row is the heading of a list.
fn heads_list(alloc: Global, row: &ByteRecord) -> Result<bool, AllocError>
    ensures { IfOk result (λ is. is ≡ heads_list (fields_of row.now)) }
{
    if names_columns(row) {
        return Ok(true);
    }
    if row.len() != 1 {
        return Ok(false);
    }
    let field = field_of(row, 0);
    if names_columns(&parts_at(alloc, b';', field)?) {
        return Ok(true);
    }
    Ok(names_columns(&parts_at(alloc, b'\t', field)?))
}

/// Whether two fields of a row, or more, name columns.
fn names_columns(row: &ByteRecord) -> bool
    ensures { result ≡ names_columns (fields_of row.now) }
{
    let mut count: usize = 0;
    for place in 0..row.len() {
        if Column::named(field_of(row, place)).is_some() {
            count += 1;
        }
    }
    count >= 2
}

/// The parts of a field between these bytes, without the blanks around each, as a row.
fn parts_at(alloc: Global, separator: u8, field: &[u8]) -> Result<ByteRecord, AllocError>
    ensures { IfOk result (λ row. fields_of row ≡ parts_at separator field.now) }
{
    let parts = split_at(alloc, separator, field)?;
    let mut row = ByteRecord::from_fields(alloc, &parts)?;
    row.trim()?;
    Ok(row)
}

/// The parts of a field between these bytes.
fn split_at(alloc: Global, separator: u8, field: &[u8]) -> Result<Vec<&[u8]>, AllocError>
    ensures { IfOk result (λ parts. map (λ part. part.now) parts.items ≡ slice_split (λ b. b == separator) field.now) }
{
    field.split(|byte| *byte == separator).collect(alloc)
}
