ghost use Rattle.std.specs.Prelude.{◌≡◌, IfOk};
ghost use Rattle.pf_script.specs.declared.version.Version.TheVariants.{Second};
ghost use Rattle.pf_script.specs.Told.{faults_in, readings_after};
ghost use Rattle.pf_c_api.specs.Faults.{AddsNext, fault_lines, script_lines};
ghost use Rattle.pf_c_api.specs.Told.{LeavesRest, MayFillRoom};

use crate::room::fill_text;
use crate::script_lines::script_lines;
use csv::ByteRecord;
use pf_c_forms::status::NO_MEMORY;
use pf_script::check::report::push_report;
use pf_script::fault::ScriptFault;
use pf_script::fields::Fields;
use pf_script::reader::ScriptReader;
use pf_script::version::Version;
use std::alloc::{AllocError, Global};

/// Writes the lines that a check of a script writes of its bad records: where each of them is, and why it is none. `count` is
/// how many bytes they have, where the room is too short too.
///
/// # Errors
///
/// `TOO_SHORT`, `NO_MEMORY`: the room is as before.
#[unsafe(no_mangle)]
pub extern "C" fn pfair_script_faults(
    alloc: Global,
    script: &[u8],
    room: &mut [u8],
    count: &mut usize,
) -> u32
    ensures faults { MayFillRoom (script_lines script.now) result count.new room.old room.new }
    ensures rest { LeavesRest result count.old count.new room.old room.new }
{
    match script_lines(alloc, script) {
        Ok(text) => fill_text(&text, room, count),
        Err(_) => NO_MEMORY,
    }
}

/// The same of records as they stand after the settings in a script of the second version, which have no names and no labels.
#[unsafe(no_mangle)]
pub extern "C" fn pfair_record_faults(
    alloc: Global,
    records: &[u8],
    room: &mut [u8],
    count: &mut usize,
) -> u32
    ensures faults { MayFillRoom (fault_lines (faults_in (readings_after Second records.now))) result count.new room.old room.new }
    ensures rest { LeavesRest result count.old count.new room.old room.new }
{
    let reader = ScriptReader::after_settings(alloc, Version::Second, records);
    match fault_lines(alloc, reader) {
        Ok(text) => fill_text(&text, room, count),
        Err(_) => NO_MEMORY,
    }
}

/// The lines of the faults that a reader has left.
#[tactic(auto, using(crate::proofs::FaultLines::lines_on, crate::proofs::FaultLines::lines_done, crate::proofs::FaultLines::fewer_left))]
pub(crate) fn fault_lines(
    alloc: Global,
    mut reader: ScriptReader<'_>,
) -> Result<Vec<u8>, AllocError>
    ensures { IfOk result (λ text. text.items ≡ fault_lines (faults_in reader.entry)) }
{
    let mut row = ByteRecord::new(alloc);
    let mut text = Vec::new(alloc);
    'records: while push_next(&mut reader, &mut row, &mut text)? {}
    Ok(text)
}

/// Adds the line of the next record, which is read into `row`, where it has a fault. Answers whether there was one more to read.
#[tactic(auto, using(crate::proofs::FaultLines::good_next, crate::proofs::FaultLines::bad_next, crate::proofs::FaultLines::missing_next))]
fn push_next(
    reader: &mut ScriptReader<'_>,
    row: &mut ByteRecord,
    text: &mut Vec<u8>,
) -> Result<bool, AllocError>
    ensures { IfOk result (λ more. AddsNext more reader.old reader.new (text.old.items) (text.new.items)) }
{
    match reader.next(row) {
        Ok(None) => Ok(false),
        Ok(Some(_)) => Ok(true),
        Err(ScriptFault::Bad(bad) | ScriptFault::Missing(bad)) => {
            push_report(text, &Fields::new(row), bad)?;
            Ok(true)
        }
        Err(ScriptFault::Memory) => Err(AllocError),
    }
}
