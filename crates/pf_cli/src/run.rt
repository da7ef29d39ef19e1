ghost use Rattle.std.specs.Prelude.{◌≡◌, ◌+◌, ◌-◌, ◌^◌, ◌<◌, ◌≤◌, length, IfSome};
ghost use Rattle.pf_commands.specs.Answers.{Answers};
ghost use Rattle.pf_vocabulary.specs.Fault.Faults.{CountsWrites, IsPastReading};
ghost use Rattle.pf_plain_script.specs.Plain.{IsPlain, Plain};
ghost use Rattle.pf_stream.specs.Reading.{TakesAtMost, longest_script};
ghost use Rattle.pf_cli.specs.Runs.{CountsReadFault, CountsWriteFault, IsUnwrittenUnread, RunsAs, plan_meaning, run_meaning};

use crate::run_fault::RunFault;
use crate::versions::numbered_fault;
use pf_commands::run::run as run_script;
use pf_plain_script::plain::{PlainScript, plain_script};
use pf_stream::reading::{LONGEST_SCRIPT, read_script};
use pf_stream::sink::Sink;
use pf_stream::source::Source;
use pf_vocabulary::fault::fault::Fault;
use pf_vocabulary::names::titles::Titles;
use pf_vocabulary::options::fail_on::FailOn;
use pf_vocabulary::options::format::Format;
use std::alloc::Global;

/// Runs the script that the reader has: carries it out, and writes its replies and its report in the format. The whole
/// input is read first, up to its byte 16,777,217. The counts of failures of both streams must be below `u64::MAX`
/// before the call.
///
/// # Errors
///
/// `ReadFault` where the reader failed: nothing was written. `ScriptTooLong` where it has more than
/// 16,777,216 bytes: nothing was written. `BadLine` at a record that is none of the script's, after the replies to the records before
/// it. `BadRange` where the range of the format can't be shown of the slots stepped: nothing was written. `WriteFault` where the
/// writer failed or took nothing, and `NoMemory` where memory is refused: a front of the text was written.
pub fn run<R: Source, W: Sink>(
    alloc: Global,
    reader: &mut R,
    writer: &mut W,
    format: Format,
) -> Result<(), RunFault>
    requires reads { R.failed reader.old < 2 ^ 64 - 1 }
    requires writes { W.failed writer.old < 2 ^ 64 - 1 }
    ensures meaning { IfSome (R.remaining reader.old) (λ bytes. RunsAs (run_meaning format bytes) result (W.contents writer.old) (W.contents writer.new)) }
    ensures unread { IsUnwrittenUnread result (W.contents writer.old) (W.contents writer.new) }
    ensures taken { TakesAtMost (R.remaining reader.old) (R.remaining reader.new) (longest_script + 1) }
    ensures reads { CountsReadFault result (R.failed reader.old) (R.failed reader.new) }
    ensures writes { CountsWriteFault result (W.failed writer.old) (W.failed writer.new) }
{
    let script = match read_script(alloc, reader) {
        Ok(script) => script,
        Err(fault) => return Err(RunFault::from(fault)),
    };
    match run_bytes(alloc, &script, writer, format) {
        Ok(()) => Ok(()),
        Err(fault) => Err(RunFault::from(fault)),
    }
}

/// Runs a script of these bytes, of any version.
fn run_bytes<W: Sink>(
    alloc: Global,
    bytes: &[u8],
    writer: &mut W,
    format: Format,
) -> Result<(), Fault>
    requires short { length bytes.now ≤ longest_script }
    requires writes { W.failed writer.old < 2 ^ 64 - 1 }
    ensures meaning { Answers (run_meaning format bytes.now) result (W.contents writer.old) (W.contents writer.new) }
    ensures read { IsPastReading result }
    ensures writes { CountsWrites result (W.failed writer.old) (W.failed writer.new) }
{
    match plain_script(alloc, bytes) {
        Ok(Some(plain)) => run_plan(alloc, &plain, writer, format),
        Ok(None) => {
            let titles = Titles::none(alloc);
            match run_script(
                alloc,
                bytes,
                writer,
                format,
                &titles,
                None,
                FailOn::nothing(),
            ) {
                Ok(_) => Ok(()),
                Err(fault) => Err(fault),
            }
        }
        Err(_) => Err(Fault::NoMemory),
    }
}

/// Runs a plan, to which this script of version 2 belongs.
fn run_plan<W: Sink>(
    alloc: Global,
    plain: &PlainScript,
    writer: &mut W,
    format: Format,
) -> Result<(), Fault>
    requires { W.failed writer.old < 2 ^ 64 - 1 }
    ensures meaning { (p : Plain) → IsPlain plain.now p → Answers (plan_meaning format p) result (W.contents writer.old) (W.contents writer.new) }
    ensures read { IsPastReading result }
    ensures writes { CountsWrites result (W.failed writer.old) (W.failed writer.new) }
{
    if plain.text.len() > LONGEST_SCRIPT {
        return Err(Fault::TooLong);
    }
    let (text, titles, origins) = (&plain.text, &plain.titles, plain.origins.as_slice());
    match run_script(
        alloc,
        text,
        writer,
        format,
        titles,
        Some(origins),
        FailOn::nothing(),
    ) {
        Ok(_) => Ok(()),
        Err(fault) => Err(numbered_fault(origins, fault)),
    }
}
