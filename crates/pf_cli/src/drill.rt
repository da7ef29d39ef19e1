ghost use Rattle.std.specs.Prelude.{◌≡◌, ◌+◌, ◌-◌, ◌^◌, ◌<◌, ◌≤◌, length, IfErr, IfOk, IfSome};
ghost use Rattle.pf_drill.specs.Drilled.{Drills};
ghost use Rattle.pf_drill.specs.Gates.{SomeArrived};
ghost use Rattle.pf_plain_script.specs.Plain.{IsPlain, Plain};
ghost use Rattle.pf_stream.specs.Reading.{TakesAtMost, longest_script};
ghost use Rattle.pf_cli.specs.Drills.{DrillsAs, StopsDrill, StopsPlan, drill_asked, plan_asked};
ghost use Rattle.pf_cli.specs.Runs.{CountsReadFault, CountsWriteFault, IsUnwrittenUnread};

use crate::run_fault::RunFault;
use crate::versions::numbered_fault;
use pf_drill::drill::drill as drill_script;
use pf_drill::gate::Gate;
use pf_plain_script::plain::{PlainScript, plain_script};
use pf_stream::reading::{LONGEST_SCRIPT, read_script};
use pf_stream::sink::Sink;
use pf_stream::source::Source;
use pf_stream::writing::write_out;
use pf_vocabulary::fault::answer::Answer;
use pf_vocabulary::fault::fault::Fault;
use std::alloc::Global;
use std::sync::Wait;
use std::thread::Threads;

/// Drills the script that the reader has, on a shared desk with a worker for each processor, and writes the schedule and the
/// quanta of its steps, each of which the worker of its processor took and arrived with at the gate. The whole input is read
/// first, up to its byte 16,777,217. Refused commands are passed over, and there are no replies. The call waits for the workers, and
/// so for the gate. The counts of failures of both streams must be below `u64::MAX` before the call.
///
/// # Errors
///
/// `ReadFault` where the reader failed; `ScriptTooLong` where it has more than 16,777,216 bytes; `BadLine` at the
/// first record that is none of the script's; `GateShut` where the gate was shut to a worker, once all are back; `NoViewer` and
/// `Unread` where the readers' table gives no place or no entry; `NoMemory` where memory is refused. Nothing was written then. `WriteFault`
/// where the writer failed or took nothing: a front of the text was written.
pub fn drill<H: Threads + Wait + Sync, R: Source, W: Sink, G: Gate + Sync>(
    rt: &H,
    alloc: Global,
    reader: &mut R,
    writer: &mut W,
    gate: &G,
) -> Result<(), RunFault>
    requires reads { R.failed reader.old < 2 ^ 64 - 1 }
    requires writes { W.failed writer.old < 2 ^ 64 - 1 }
    ensures drilled { IfSome (R.remaining reader.old) (λ bytes. DrillsAs (G.lets_in gate.now) (SomeArrived (G.shuts_out gate.now)) bytes result (W.contents writer.old) (W.contents writer.new)) }
    ensures unread { IsUnwrittenUnread result (W.contents writer.old) (W.contents writer.new) }
    ensures taken { TakesAtMost (R.remaining reader.old) (R.remaining reader.new) (longest_script + 1) }
    ensures reads { CountsReadFault result (R.failed reader.old) (R.failed reader.new) }
    ensures writes { CountsWriteFault result (W.failed writer.old) (W.failed writer.new) }
{
    let script = match read_script(alloc, reader) {
        Ok(script) => script,
        Err(fault) => return Err(RunFault::from(fault)),
    };
    match drill_bytes(rt, alloc, &script, gate) {
        Ok(answer) => match write_out(writer, &answer.text) {
            Ok(()) => Ok(()),
            Err(_) => Err(RunFault::WriteFault),
        },
        Err(fault) => Err(RunFault::from(fault)),
    }
}

/// The drill of a script of these bytes, of any version.
fn drill_bytes<H: Threads + Wait + Sync, G: Gate + Sync>(
    rt: &H,
    alloc: Global,
    bytes: &[u8],
    gate: &G,
) -> Result<Answer, Fault>
    requires { length bytes.now ≤ longest_script }
    ensures drilled { IfOk result (λ answer. Drills (G.lets_in gate.now) (drill_asked bytes.now) answer.text.items) }
    ensures stopped { IfErr result (StopsDrill (SomeArrived (G.shuts_out gate.now)) bytes.now) }
{
    match plain_script(alloc, bytes) {
        Ok(Some(plain)) => drill_plan(rt, alloc, &plain, gate),
        Ok(None) => drill_script(rt, alloc, bytes, gate),
        Err(_) => Err(Fault::NoMemory),
    }
}

/// The drill of a plan, to which this script of version 2 belongs.
fn drill_plan<H: Threads + Wait + Sync, G: Gate + Sync>(
    rt: &H,
    alloc: Global,
    plain: &PlainScript,
    gate: &G,
) -> Result<Answer, Fault>
    ensures drilled { (p : Plain) → IsPlain plain.now p → IfOk result (λ answer. Drills (G.lets_in gate.now) (plan_asked p) answer.text.items) }
    ensures stopped { (p : Plain) → IsPlain plain.now p → IfErr result (StopsPlan (SomeArrived (G.shuts_out gate.now)) p) }
{
    if plain.text.len() > LONGEST_SCRIPT {
        return Err(Fault::TooLong);
    }
    match drill_script(rt, alloc, &plain.text, gate) {
        Ok(answer) => Ok(answer),
        Err(fault) => Err(numbered_fault(&plain.origins, fault)),
    }
}
