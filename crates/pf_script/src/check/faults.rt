ghost use Rattle.std.specs.Prelude.{◌≡◌, ◌≤◌, ◌<◌, ◌-◌, ◌^◌, length, IfOk, OnOk};
ghost use Rattle.pf_script.specs.PlanCheck.Checked.{faults as plan_faults};
ghost use Rattle.pf_text.specs.Rows.Rows.{rows};
ghost use Rattle.pf_script.specs.Script.{script_records};
ghost use Rattle.pf_script.specs.Told.{faults};
ghost use Rattle.pf_stream.specs.Reading.{longest_script};
ghost use Rattle.pf_script.specs.Check.Found.{Finds};
ghost use Rattle.pf_script.specs.Check.Lines.{after_fault};
ghost use Rattle.pf_script.specs.Messages.Lines.{plain_messages, plan_messages};

use crate::check::fault_lines::FaultLines;
use crate::check::found::Found;
use crate::fault::ScriptFault;
use crate::fields::Fields;
use crate::messages::telling::{Message, Telling};
use crate::plan_check::plan_faults::PlanFaults;
use crate::reader::ScriptReader;
use csv::ByteRecord;
use std::alloc::{AllocError, Global};

/// The faults of a script of version 1 or 2.
///
/// # Errors
///
/// Where memory is refused.
pub fn plain_faults(alloc: Global, mut telling: Telling, script: &[u8]) -> Result<Found, AllocError>
    requires { length script.now ≤ longest_script }
    ensures { IfOk result (Finds (length (script_records script.now)) (plain_messages telling.entry (faults script.now))) }
{
    let mut reader = ScriptReader::new(alloc, script);
    let mut row = ByteRecord::new(alloc);
    let mut found = Found::new(alloc);
    'records: loop {
        match reader.next(&mut row) {
            Ok(Some(_)) => found.records += 1,
            Ok(None) => return Ok(found),
            Err(ScriptFault::Bad(bad)) => {
                let message = telling.plain(&Fields::new(&row), bad)?;
                found.take(&message)?;
            }
            Err(ScriptFault::Missing(bad)) => {
                let message = telling.plain(&Fields::new(&row), bad)?;
                found.lines.end(&message)?;
            }
            Err(ScriptFault::Memory) => return Err(AllocError),
        }
    }
}

/// Those of a plan. Its first record is the heading.
///
/// # Errors
///
/// Where memory is refused.
pub fn plan_faults(alloc: Global, mut telling: Telling, script: &[u8]) -> Result<Found, AllocError>
    requires { length script.now ≤ longest_script }
    ensures { IfOk result (Finds (length (rows script.now).rows) (plan_messages telling.entry (plan_faults (rows script.now)))) }
{
    let mut row = ByteRecord::new(alloc);
    let mut faults = PlanFaults::new(alloc, script, &mut row)?;
    let mut lines = FaultLines::new(alloc);
    'faults: while let Some(bad) = faults.next(&mut row)? {
        let message = telling.plan(faults.progress(), &Fields::new(&row), bad)?;
        add(&mut lines, &message, faults.records())?;
    }
    let records = faults.records();
    Ok(Found { lines, records })
}

/// Adds the message of a fault of a script of which so many records were read: one that it lacks lies after them.
fn add(lines: &mut FaultLines, message: &Message, records: u64) -> Result<(), AllocError>
    requires lacking { lines.old.lacking < 2 ^ 64 - 1 }
    requires others { lines.old.others < 2 ^ 64 - 1 }
    ensures { OnOk result (lines.new ≡ after_fault records lines.old message.now) }
{
    if message.number > records {
        lines.end(message)
    } else {
        lines.add(message)
    }
}
