ghost use Rattle.std.specs.Prelude.{◌≡◌, IfOk};
ghost use Rattle.pf_c_api.specs.Faults.{script_lines, plan_lines};

use crate::faults::fault_lines;
use csv::ByteRecord;
use pf_script::fields::Fields;
use pf_script::plan::heading::is_plan_heading;
use pf_script::plan_check::plan_faults::PlanFaults;
use pf_script::plan_check::report::push_report;
use pf_script::reader::ScriptReader;
use std::alloc::{AllocError, Global};

/// The lines of the faults of a script.
pub(crate) fn script_lines(alloc: Global, script: &[u8]) -> Result<Vec<u8>, AllocError>
    ensures { IfOk result (λ text. text.items ≡ script_lines script.now) }
{
    let mut row = ByteRecord::new(alloc);
    let faults = PlanFaults::new(alloc, script, &mut row)?;
    if is_plan_heading(&Fields::new(&row)) {
        plan_lines(alloc, faults, row)
    } else {
        fault_lines(alloc, ScriptReader::new(alloc, script))
    }
}

/// The same of a plan. Each record is read into `row`.
fn plan_lines(
    alloc: Global,
    mut faults: PlanFaults,
    mut row: ByteRecord,
) -> Result<Vec<u8>, AllocError>
    ensures { IfOk result (λ text. text.items ≡ plan_lines faults.entry.faults) }
{
    let mut text = Vec::new(alloc);
    'faults: while let Some(bad) = faults.next(&mut row)? {
        push_report(&mut text, &Fields::new(&row), bad)?;
    }
    Ok(text)
}
