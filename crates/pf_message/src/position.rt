ghost use Rattle.std.specs.Prelude.{◌≡◌, ◌-◌, ◌<◌, length};
ghost use Rattle.csv.specs.Reading.{strip_bom};
ghost use Rattle.pf_message.specs.Positions.{Field, field_position};

use crate::cursor::{Cursor, without_mark};

/// A byte's place in a text: its line and its column, both counted from 1. A column counts bytes.
#[derive(Clone, Copy)]
pub struct Position {
    /// The line, which ends at CR, LF or CR LF.
    pub line: u64,
    /// The byte of the line.
    pub column: u64,
}

/// The first byte of a field, counted from 1, of the record of a text that begins on this line; where `trims`, the first that is
/// no blank. Of a field that is not there it is the end of the record: its line end, or the end of the text. A byte order mark at
/// the text's start does not count.
pub fn field_position(text: &[u8], line: u64, field: usize, trims: bool) -> Position
    ensures { result ≡ field_position text.now (record { line = line; number = field; trims = trims }) }
{
    let mut cursor = Cursor::new(without_mark(text));
    cursor.go_to_line(line);
    cursor.pass_fields(field.saturating_sub(1));
    if trims {
        cursor.pass_blanks();
    }
    cursor.position()
}
