ghost use Rattle.std.specs.Prelude.{◌≡◌, ◌++◌, None, IfOk, IfErr};
ghost use Rattle.pf_desk.specs.Desk.{AnswersAll};
ghost use Rattle.pf_script_desk.specs.Asked.{commands_in};
ghost use Rattle.pf_script.specs.Told.{told};
ghost use Rattle.pf_script_desk.specs.Carrying.{script_caller};
ghost use Rattle.pf_script_run.specs.Carried.{IsOf, Stops};

use csv::ByteRecord;
use pf_desk::desk::Desk;
use pf_script::line_reader::LineReader;
use pf_script::opened::OpenedScript;
use pf_script_desk::carrying_desk::CarryingDesk;
use pf_vocabulary::fault::fault::Fault;
use std::alloc::Global;

/// Carries a script of these bytes out, and gives the desk at its end. Edits that follow one another are answered together, so
/// that the slots that they touch are replayed once.
///
/// # Errors
///
/// `BadRecord` at the first record that is none of the script's, and `NoMemory` where memory is refused.
pub fn carry(alloc: Global, script: &[u8]) -> Result<Desk, Fault>
    ensures carried { IfOk result (λ desk. IsOf (told script.now) desk) }
    ensures whole { IfOk result (λ desk. (told script.now).rest.fault ≡ None) }
    ensures stopped { IfErr result (Stops (told script.now).rest.fault) }
{
    let mut row = ByteRecord::new(alloc);
    let opened = OpenedScript::open(alloc, script, &mut row)?;
    let opening = opened.opening;
    let desk = CarryingDesk::open(alloc, opening.settings, opening.every)?;
    carry_lines(desk, opened.lines, row)
}

/// Carries these lines out. Each record is read into `row`.
fn carry_lines(
    mut desk: CarryingDesk,
    mut lines: LineReader<'_>,
    mut row: ByteRecord,
) -> Result<Desk, Fault>
    ensures answered { IfOk result
        (λ after. AnswersAll script_caller (desk.waiting ++ commands_in lines.entry.lines) desk.desk after) }
    ensures whole { IfOk result (λ after. lines.entry.fault ≡ None) }
    ensures stopped { IfErr result (Stops lines.entry.fault) }
{
    'lines: while let Some(told) = lines.next(&mut row)? {
        desk.take(told.asks)?;
    }
    desk.answer_waiting()?;
    Ok(desk.into_desk())
}
