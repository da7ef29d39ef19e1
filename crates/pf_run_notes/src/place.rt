ghost use Rattle.std.specs.Prelude.{◌≡◌, ◌++◌, OnOk};
ghost use Rattle.pf_run_notes.specs.Places.{place_text};

use pf_message::form::push_position_front;
use pf_message::position::Position;
use std::alloc::AllocError;

/// Where a record of a script stands.
#[derive(Clone, Copy)]
pub struct Place {
    /// Its number, from 1.
    pub record: u64,
    /// The number of the line on which it begins, from 1.
    pub line: u64,
    /// Where in that line it begins: the number of a byte, from 1.
    pub column: u64,
}

/// Appends what stands before a message of a record of the file: `FILE:LINE:COLUMN: `.
///
/// # Errors
///
/// Where memory is refused: the text is given up.
pub fn push_place(text: &mut Vec<u8>, file: &[u8], place: Place) -> Result<(), AllocError>
    ensures { OnOk result (text.new.items ≡ text.old.items ++ place_text file.now place) }
{
    let position = Position {
        line: place.line,
        column: place.column,
    };
    push_position_front(text, file, position)
}
