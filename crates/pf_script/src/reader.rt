use crate::fault::{BadRecord, ScriptFault};
use crate::fields::Fields;
use crate::record::RecordTold;
use crate::record_lines::RecordLines;
use crate::script::Script;
use crate::state::ScriptState;
use crate::version::Version;
use csv::ByteRecord;
use std::alloc::Global;
use std::marker::Model;

/// A script that is read record by record, one of which is in memory at a time, in the record of the caller's. Contracts see
/// it as the list of what is left to read: records, and faults.
#[derive(Drop)]
pub struct ScriptReader<'a> {
    records: Script<'a>,
    places: RecordLines<'a>,
    state: ScriptState,
    // How many records were read.
    number: u64,
    ended: bool,
}

impl<'a> Model for ScriptReader<'a> {
    ghost use Rattle.std.specs.Prelude.{◌+◌, ◌≤◌, ◌<◌, ◌-◌, ◌^◌, List, [], length, if◌then◌else◌};
    ghost use Rattle.pf_script.specs.Left.{lines_left};
    ghost use Rattle.pf_script.specs.Told.{Reading, readings_from};

    ghost Value = { List Reading };

    ghost view = { λ r. if r.ended then [] else readings_from r.state (r.number + 1) (lines_left r.places) r.records };

    ghost invariant = { λ r. (r.number + length r.records < 2 ^ 64 - 1) × (r.places.passed ≤ r.number) };
}

impl<'a> ScriptReader<'a> {
    ghost use Rattle.std.specs.Prelude.{◌≡◌, ◌+◌, ◌<◌, ◌-◌, ◌^◌, length};
    ghost use Rattle.csv.specs.Records.{fields_of};
    ghost use Rattle.pf_script.specs.Answers.{ReadsNext};
    ghost use Rattle.pf_script.specs.Places.{record_lines};
    ghost use Rattle.pf_script.specs.Script.{script_records};
    ghost use Rattle.pf_script.specs.Told.{readings, readings_after, readings_from};

    /// All records of a script. A byte order mark before the first one is passed over.
    pub fn new(alloc: Global, bytes: &'a [u8]) -> Self
        ensures { result ≡ readings bytes.now }
    {
        ScriptReader::at(alloc, ScriptState::new(), bytes)
    }

    /// All records of a text with which a script of this version goes on after its settings. A byte order mark before the
    /// first one is passed over.
    pub fn after_settings(alloc: Global, version: Version, bytes: &'a [u8]) -> Self
        ensures { result ≡ readings_after version bytes.now }
    {
        ScriptReader::at(alloc, ScriptState::opened(version), bytes)
    }

    /// The records of a text with which a script goes on that has come to this state.
    fn at(alloc: Global, state: ScriptState, bytes: &'a [u8]) -> Self
        ensures { result ≡ readings_from state 1 (record_lines bytes.now) (script_records bytes.now) }
    {
        ScriptReader {
            records: Script::new(alloc, bytes),
            places: RecordLines::new(bytes),
            state,
            number: 0,
            ended: false,
        }
    }

    /// The next record, whose fields are then in `row`; `None` after the last one.
    ///
    /// # Errors
    ///
    /// `Bad` at a record that is none of the script's: the next call goes on as though it had not been there. `Missing` at the
    /// end of a script without settings, once. `Memory` where memory is refused: nothing is left to read.
    pub fn next(&mut self, row: &mut ByteRecord) -> Result<Option<RecordTold>, ScriptFault>
        ensures { ReadsNext result (fields_of row.new) self.old self.new }
    {
        if self.ended {
            return Ok(None);
        }
        let Ok(found) = self.records.next(row) else {
            self.ended = true;
            return Err(ScriptFault::Memory);
        };
        if !found {
            self.ended = true;
            row.clear();
            let Some(fault) = self.state.end_fault() else {
                return Ok(None);
            };
            return Err(ScriptFault::Missing(BadRecord {
                number: self.number + 1,
                line: self.places.next_line(),
                fault,
            }));
        }
        self.number += 1;
        match self.state.take(&Fields::new(row)) {
            Ok(says) => {
                self.places.pass();
                Ok(Some(RecordTold {
                    number: self.number,
                    says,
                }))
            }
            Err(fault) => Err(ScriptFault::Bad(BadRecord {
                number: self.number,
                line: self.places.next_line(),
                fault,
            })),
        }
    }
}
