use crate::fault::ScriptFault;
use crate::line_reader::LineReader;
use crate::reader::ScriptReader;
use crate::record::{Record, ScriptSettings};
use csv::ByteRecord;
use std::alloc::Global;

/// A script whose settings were read.
#[derive(Drop)]
pub struct OpenedScript<'a> {
    /// The settings.
    pub opening: ScriptSettings,
    /// The records after them.
    pub lines: LineReader<'a>,
}

impl<'a> OpenedScript<'a> {
    ghost use Rattle.csv.specs.Records.{fields_of};
    ghost use Rattle.pf_script.specs.Opened.{Opens};
    ghost use Rattle.pf_script.specs.Told.{told};

    /// Reads a script up to its settings. Each record is read into `row`.
    ///
    /// # Errors
    ///
    /// `Bad` at the first record that is none of the script's, `Missing` at the end of a script without settings, and `Memory`
    /// where memory is refused.
    pub fn open(
        alloc: Global,
        bytes: &'a [u8],
        row: &mut ByteRecord,
    ) -> Result<OpenedScript<'a>, ScriptFault>
        ensures { Opens result (fields_of row.new) (told bytes.now) }
    {
        let mut reader = ScriptReader::new(alloc, bytes);
        'records: while let Some(told) = reader.next(row)? {
            match told.says {
                Record::Heading => (),
                Record::Settings(opening) => {
                    let lines = LineReader::new(reader);
                    return Ok(OpenedScript { opening, lines });
                }
                Record::Asks(_) => unreachable!(),
            }
        }
        unreachable!()
    }
}
