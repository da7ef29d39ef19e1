use csv::{ByteRecord, Reader, ReaderBuilder};
use std::alloc::{AllocError, Global};
use std::marker::Model;

/// The records of a script that are not read yet. One of them is in memory at a time, in the record of the caller's.
#[derive(Drop)]
pub struct Script<'a> {
    reader: Reader<&'a [u8]>,
    // Whether the records are at their end. Nothing is promised of a reader that is asked again there.
    ended: bool,
}

impl<'a> Model for Script<'a> {
    ghost use Rattle.std.specs.Prelude.{ℕ, List, [], if◌then◌else◌};

    ghost Value = { List (List (List ℕ)) };

    ghost use Rattle.pf_script.specs.Script.{records_left, ReadsScripts};

    ghost view = { λ s. if s.ended then [] else records_left s.reader };

    ghost invariant = { λ s. ReadsScripts s.reader };
}

impl<'a> Script<'a> {
    ghost use Rattle.std.specs.Prelude.{◌≡◌, false, [], ◌∷◌, IfOk, OnErr, if◌then◌else◌};
    ghost use Rattle.csv.specs.Records.{fields_of};
    ghost use Rattle.pf_script.specs.Script.{script_records};

    /// All records of a script. A byte order mark before the first record is passed over, a second one is not.
    pub fn new(alloc: Global, bytes: &'a [u8]) -> Self
        ensures { result ≡ script_records bytes.now }
    {
        let reader = ReaderBuilder::new()
            .has_headers(false)
            .flexible(true)
            .from_reader(alloc, bytes);
        Script {
            reader,
            ended: false,
        }
    }

    /// The next record into `row`, and whether there was one; after the last there are none.
    ///
    /// # Errors
    ///
    /// Where memory is refused: the records that were left are lost.
    pub fn next(&mut self, row: &mut ByteRecord) -> Result<bool, AllocError>
        ensures record { IfOk result (λ found. self.old ≡ (if found then fields_of row.new ∷ self.new else [])) }
        ensures ended { IfOk result (λ found. found ≡ false → self.new ≡ []) }
        ensures lost { OnErr result (self.new ≡ []) }
    {
        if self.ended {
            return Ok(false);
        }
        let Ok(found) = self.reader.read_byte_record(row) else {
            return Err(AllocError);
        };
        self.ended = !found;
        Ok(found)
    }
}
