ghost use Rattle.std.specs.Prelude.{◌≡◌, ◌++◌, ◌-◌, IfOk, OnOk, length, replicate};
ghost use Rattle.pf_text.specs.Columns.Columns.{AreWidths, columns_text, padded, padded_from, row_line, width_of, without_end_blanks};

use crate::columns::row::Row;
use std::alloc::{AllocError, Global};

/// Adds a table of these rows, the first of which are the headings: each column as wide as its widest cell, cells at the
/// left, two blanks between columns, and none at the end of a line.
///
/// # Errors
///
/// Where memory is refused: a front of it was added.
pub fn push_columns(alloc: Global, text: &mut Vec<u8>, rows: &[Row]) -> Result<(), AllocError>
    ensures { OnOk result (text.new.items ≡ text.old.items ++ columns_text rows.now) }
{
    let widths = widths_of(alloc, rows)?;
    for row in rows {
        push_row(alloc, text, rows, &widths, row)?;
    }
    Ok(())
}

/// Adds the line of a row. These are the widths of the first columns.
fn push_row(
    alloc: Global,
    text: &mut Vec<u8>,
    rows: &[Row],
    widths: &[usize],
    row: &Row,
) -> Result<(), AllocError>
    requires { AreWidths rows.now widths.now }
    ensures { OnOk result (text.new.items ≡ text.old.items ++ row_line rows.now row.now) }
{
    let mut line = Vec::new(alloc);
    for column in 0..row.len() {
        let width = width_at(rows, widths, column);
        push_padded(&mut line, width, row.cell(column))?;
    }
    text.extend_from_slice(without_end_blanks(&line))?;
    text.push(b'\n')?;
    Ok(())
}

/// The widths of the columns of the first row, each looked for once.
fn widths_of(alloc: Global, rows: &[Row]) -> Result<Vec<usize>, AllocError>
    ensures { IfOk result (λ v. AreWidths rows.now v.items) }
{
    let count = match rows.first() {
        Some(first) => first.len(),
        None => 0,
    };
    let mut widths = Vec::new(alloc);
    for column in 0..count {
        widths.push(width_of(rows, column))?;
    }
    Ok(widths)
}

/// The width of a column: that of one of the first, which are known, or looked for.
fn width_at(rows: &[Row], widths: &[usize], column: usize) -> usize
    requires { AreWidths rows.now widths.now }
    ensures { result ≡ width_of rows.now column }
{
    if column < widths.len() {
        widths[column]
    } else {
        width_of(rows, column)
    }
}

/// The length of the widest cell of a column.
fn width_of(rows: &[Row], column: usize) -> usize
    ensures { result ≡ width_of rows.now column }
{
    let mut width = 0;
    for row in rows {
        width = width.max(row.cell(column).len());
    }
    width
}

/// Adds a cell with blanks after it up to a width, and two more.
fn push_padded(line: &mut Vec<u8>, width: usize, cell: &[u8]) -> Result<(), AllocError>
    ensures { OnOk result (line.new.items ≡ line.old.items ++ padded width cell.now) }
{
    line.extend_from_slice(cell)?;
    for _ in 0..width.saturating_sub(cell.len()) {
        line.push(b' ')?;
    }
    line.extend_from_slice(b"  ")?;
    Ok(())
}

/// A text without the blanks at its end.
fn without_end_blanks(text: &[u8]) -> &[u8]
    ensures { result.now ≡ without_end_blanks text.now }
{
    let mut end = text.len();
    while end > 0 && text[end - 1] == b' ' {
        end -= 1;
    }
    &text[..end]
}
