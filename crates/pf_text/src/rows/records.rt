use csv::{ByteRecord, Reader, ReaderBuilder, Trim};
use std::alloc::{AllocError, Global};
use std::marker::Model;

/// The records of a text that are not read yet, without the white space at both ends of each field.
#[derive(Drop)]
pub struct Records<'a> {
    reader: Reader<&'a [u8]>,
    // Whether the records are at their end. Nothing is promised of a reader that is asked again there.
    ended: bool,
}

impl<'a> Model for Records<'a> {
    ghost use Rattle.std.specs.Prelude.{ℕ, ◌≡◌, false, List, [], map, if◌then◌else◌};
    ghost use Rattle.csv.specs.Records.{trimmed};

    ghost Value = { List (List (List ℕ)) };

    ghost use Rattle.pf_text.specs.Rows.Left.{ReadsRows, records_left};

    ghost view = { λ s. if s.ended then [] else map (map trimmed) (records_left s.reader) };

    ghost invariant = { λ s. s.ended ≡ false → ReadsRows s.reader };
}

impl<'a> Records<'a> {
    ghost use Rattle.std.specs.Prelude.{◌≡◌, false, [], ◌∷◌, IfOk, if◌then◌else◌};
    ghost use Rattle.csv.specs.Records.{fields_of};
    ghost use Rattle.pf_text.specs.Rows.Rows.{text_records};

    /// All records of a text. A byte order mark before the first one is passed over.
    pub fn new(alloc: Global, text: &'a [u8]) -> Self
        ensures { result ≡ text_records text.now }
    {
        let reader = ReaderBuilder::new()
            .has_headers(false)
            .flexible(true)
            .comment(Some(b'#'))
            .trim(Trim::Fields)
            .from_reader(alloc, text);
        Records {
            reader,
            ended: false,
        }
    }

    /// The next record into `row`, and whether there was one; after the last there are none.
    ///
    /// # Errors
    ///
    /// Where memory is refused.
    pub fn next(&mut self, row: &mut ByteRecord) -> Result<bool, AllocError>
        ensures record { IfOk result (λ found. self.old ≡ (if found then fields_of row.new ∷ self.new else [])) }
        ensures ended { IfOk result (λ found. found ≡ false → self.new ≡ []) }
    {
        if self.ended {
            return Ok(false);
        }
        let Ok(found) = self.reader.read_byte_record(row) else {
            return Err(AllocError);
        };
        self.ended = !found;
        Ok(found)
    }
}
