ghost use Rattle.std.specs.Prelude.{◌≡◌, None, IfOk, IfErr};
ghost use Rattle.pf_change.specs.Made.{StopsReading};

use csv::ByteRecord;
use pf_script::line_reader::LineReader;
use pf_script::record::LineTold;
use pf_vocabulary::fault::fault::Fault;
use std::alloc::Global;

/// All lines after the settings. Each record is read into `row`.
///
/// # Errors
///
/// `BadRecord` at the first record that is none of the script's, `NoMemory` where memory is refused.
pub(crate) fn read_lines(
    alloc: Global,
    mut lines: LineReader,
    mut row: ByteRecord,
) -> Result<Vec<LineTold>, Fault>
    ensures read { IfOk result (λ read. lines.entry ≡ record { lines = read.items; fault = None }) }
    ensures stopped { IfErr result (StopsReading lines.entry.fault) }
{
    let mut read = Vec::new(alloc);
    'records: while let Some(line) = lines.next(&mut row)? {
        if read.push(line).is_err() {
            return Err(Fault::NoMemory);
        }
    }
    Ok(read)
}
