ghost use Rattle.std.specs.Prelude.{◌≡◌, ◌++◌, OnOk};
ghost use Rattle.pf_convert.specs.List.Messages.{front_text};

use pf_message::form::{push_file_front, push_position_front};
use pf_message::position::{Position, field_position};
use std::alloc::AllocError;

/// Above the number of every field.
pub const NO_FIELD: usize = usize::MAX;

/// Where in a list of tasks a message is of.
#[derive(Clone, Copy)]
pub enum Place {
    /// The list.
    File,
    /// Its first byte.
    Start,
    /// A field of the record that begins on this line, or the record's end where it has fewer.
    Field {
        /// The line, counted from 1.
        line: u64,
        /// The number of the field, counted from 1.
        number: usize,
    },
    /// The end of the list.
    End {
        /// Its line, counted from 1.
        line: u64,
    },
}

impl Place {
    /// Adds what stands before a message of this place: the name of the file and where in these bytes it is.
    ///
    /// # Errors
    ///
    /// Where memory is refused: a front of it was added.
    pub fn push_front(self, text: &mut Vec<u8>, file: &[u8], list: &[u8]) -> Result<(), AllocError>
        ensures { OnOk result (text.new.items ≡ text.old.items ++ front_text file.now list.now self) }
    {
        match self {
            Place::File => push_file_front(text, file),
            Place::Start => push_position_front(text, file, Position { line: 1, column: 1 }),
            Place::Field { line, number } => {
                push_position_front(text, file, field_position(list, line, number, true))
            }
            Place::End { line } => {
                push_position_front(text, file, field_position(list, line, NO_FIELD, false))
            }
        }
    }
}
