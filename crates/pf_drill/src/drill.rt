ghost use Rattle.std.specs.Prelude.{IfOk, IfErr};
ghost use Rattle.pf_vocabulary.specs.declared.fault.status.Status.TheVariants.{Done};
ghost use Rattle.pf_vocabulary.specs.Fault.Answers.{IsQuiet};
ghost use Rattle.pf_vocabulary.specs.Fault.Faults.{IsUnwritten};
ghost use Rattle.pf_drill.specs.Drilled.{Drills, Stops};
ghost use Rattle.pf_drill.specs.Gates.{SomeArrived};
ghost use Rattle.pf_script_desk.specs.Asked.{script_asked};

use crate::gate::Gate;
use crate::lines::drill_lines;
use csv::ByteRecord;
use pf_script::opened::OpenedScript;
use pf_share::blank::Blank;
use pf_share::fault::OpenFault;
use pf_vocabulary::fault::answer::Answer;
use pf_vocabulary::fault::fault::Fault;
use std::alloc::Global;
use std::marker::Brand;
use std::sync::Wait;
use std::thread::Threads;

/// Carries out a script of these bytes on a shared desk with a worker for each processor, and answers the schedule of the
/// script and the quanta of its steps, each of which the worker of its processor took: after each step every worker, in a
/// thread of its own, takes the quantum of its processor and arrives with it at the gate, and all are back before the next
/// step or record. Refused commands are passed over. The text is that of the script's own commands alone. The call waits for
/// the workers, and so for the gate.
///
/// # Errors
///
/// `BadRecord` at the first record that is none of the script's. `GateShut` where the gate was shut to a worker, once all
/// are back. `NoViewer` where the readers' table gives no place, `Unread` where it gives no entry. `NoMemory` where memory is refused.
pub fn drill<R: Threads + Wait + Sync, G: Gate + Sync>(
    rt: &R,
    alloc: Global,
    script: &[u8],
    gate: &G,
) -> Result<Answer, Fault>
    ensures drilled { IfOk result (λ answer. Drills (G.lets_in gate.now) (script_asked script.now) answer.text.items) }
    ensures quiet { IfOk result (λ answer. IsQuiet Done answer.ending) }
    ensures stopped { IfErr result (Stops (SomeArrived (G.shuts_out gate.now)) (script_asked script.now)) }
    ensures unwritten { IfErr result IsUnwritten }
{
    match drill_script(rt, alloc, script, gate) {
        Ok(text) => Ok(Answer::done(alloc, text)),
        Err(fault) => Err(fault),
    }
}

/// The text of the drill of a script of these bytes.
fn drill_script<R: Threads + Wait + Sync, G: Gate + Sync>(
    rt: &R,
    alloc: Global,
    bytes: &[u8],
    gate: &G,
) -> Result<Vec<u8>, Fault>
    ensures drilled { IfOk result (λ text. Drills (G.lets_in gate.now) (script_asked bytes.now) text.items) }
    ensures stopped { IfErr result (Stops (SomeArrived (G.shuts_out gate.now)) (script_asked bytes.now)) }
{
    let mut row = ByteRecord::new(alloc);
    let script = OpenedScript::open(alloc, bytes, &mut row)?;
    let opening = script.opening;
    let passes = u64::from(opening.settings.processors()) + 1;
    let blank = match Blank::open(rt, alloc, opening.settings, opening.every, passes, 1) {
        Ok(blank) => blank,
        Err(OpenFault::BadSettings) => unreachable!(),
        Err(OpenFault::NoViewer) => return Err(Fault::NoViewer),
        Err(OpenFault::NoMemory) => return Err(Fault::NoMemory),
    };
    drill_lines::<Brand, _, _, _>(rt, alloc, blank, script.lines, row, gate)
}
