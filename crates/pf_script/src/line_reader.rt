use crate::fault::ScriptFault;
use crate::reader::ScriptReader;
use crate::record::{LineTold, Record};
use crate::version::Version;
use csv::ByteRecord;
use std::alloc::Global;
use std::marker::Model;

/// The records after a script's settings, up to the first fault. Contracts see it as what is left of them.
#[derive(Drop)]
pub struct LineReader<'a> {
    reader: ScriptReader<'a>,
}

impl<'a> Model for LineReader<'a> {
    ghost use Rattle.pf_script.specs.Answers.{AreLines};
    ghost use Rattle.pf_script.specs.Told.{LinesTold, rest_in};

    ghost Value = { LinesTold };

    ghost view = { λ r. rest_in r.reader };

    ghost invariant = { λ r. AreLines r.reader };
}

impl<'a> LineReader<'a> {
    ghost use Rattle.std.specs.Prelude.{◌≡◌};
    ghost use Rattle.csv.specs.Records.{fields_of};
    ghost use Rattle.pf_script.specs.Answers.{AreLines, ReadsLine};
    ghost use Rattle.pf_script.specs.Told.{readings_after, rest_in};

    /// The records that a reader has left after the settings.
    pub(crate) fn new(reader: ScriptReader<'a>) -> Self
        requires { AreLines reader }
        ensures { result ≡ rest_in reader.entry }
    {
        LineReader { reader }
    }

    /// The records of a text with which a script of this version goes on after its settings. A byte order mark before the
    /// first one is passed over.
    pub fn after_settings(alloc: Global, version: Version, bytes: &'a [u8]) -> Self
        ensures { result ≡ rest_in (readings_after version bytes.now) }
    {
        LineReader::new(ScriptReader::after_settings(alloc, version, bytes))
    }

    /// The next record after the settings, whose fields are then in `row`; `None` after the last one.
    ///
    /// # Errors
    ///
    /// `Bad` at the first record that is none of the script's, and `Memory` where memory is refused. Nothing is then
    /// promised of a further call.
    pub fn next(&mut self, row: &mut ByteRecord) -> Result<Option<LineTold>, ScriptFault>
        ensures { ReadsLine result (fields_of row.new) self.old self.new }
    {
        let Some(told) = self.reader.next(row)? else {
            return Ok(None);
        };
        let Record::Asks(asks) = told.says else {
            unreachable!()
        };
        Ok(Some(LineTold {
            number: told.number,
            asks,
        }))
    }
}
