ghost use Rattle.std.specs.Prelude.{◌≡◌, ◌-◌, ◌^◌, ◌<◌, ◌≤◌, List, length, [], None, Some, IfOk, OnOk, OnErr, option_map};
ghost use Rattle.std.specs.Io.KnownBytes.{Appends, Keeps};
ghost use Rattle.pf_vocabulary.specs.declared.fault.status.Status.TheVariants.{Done};
ghost use Rattle.pf_vocabulary.specs.Fault.Faults.{CountsWrites, IsOutside, IsPastReading};
ghost use Rattle.pf_stream.specs.Reading.{longest_script};
ghost use Rattle.pf_stream.specs.Written.{CountsOutput, TookFront};
ghost use Rattle.pf_script_run.specs.Carried.{IsOf};
ghost use Rattle.pf_formats.specs.Refusal.{Refusal};
ghost use Rattle.pf_formats.specs.Report.{report_text};
ghost use Rattle.pf_vocabulary.specs.Options.Formats.{range_fault};
ghost use Rattle.pf_vocabulary.specs.declared.names.titles.Titles.{Titles};
ghost use Rattle.pf_script.specs.Told.{told};
ghost use Rattle.pf_vocabulary.specs.Options.FailLists.{on_nothing};
ghost use Rattle.pf_commands.specs.Answers.{Answers};
ghost use Rattle.pf_commands.specs.CarriedOut.{CarriesOut};
ghost use Rattle.pf_commands.specs.Ended.{fails_on, run_status, script_course};
ghost use Rattle.pf_replies.specs.Course.{course_at};
ghost use Rattle.pf_commands.specs.Meaning.{report_meaning, script_meaning};
ghost use Rattle.pf_commands.specs.Refusals.{refusals_for};

use crate::failing::status_of;
use crate::ran::Ran;
use crate::refusals::refusals_for;
use pf_desk::desk::Desk;
use pf_desk::snapshot::Snapshot;
use pf_formats::report::report_pieces;
use pf_full::refusal::Refusal;
use pf_plain_script::origin::Origin;
use pf_replies::script_replies::ScriptReplies;
use pf_stream::output_fault::OutputFault;
use pf_stream::sink::Sink;
use pf_stream::writing::write_pieces;
use pf_text::pieces::Pieces;
use pf_vocabulary::fault::ending::Ending;
use pf_vocabulary::fault::fault::Fault;
use pf_vocabulary::names::titles::Titles;
use pf_vocabulary::options::fail_on::FailOn;
use pf_vocabulary::options::format::Format;
use std::alloc::Global;

/// Carries out a script of these bytes, and writes its replies and its report in the format: what it writes, and how it
/// ends, is what the script's bytes mean. Hands over the desk that carried it out. The titles are those that the report tells
/// of: of a script of version 1 or 2 none. Where the script belongs to a plan, `origins` are the records there that
/// its own come from, and records are told by them. Plain edits that follow one another, from the first of them that touches a
/// slot that was stepped, are replayed together, 1,024 at most. The status is `FailedOn` where the run fails on what is listed:
/// a command that was refused, an event that is denied in the run of the scenario as it stands at the end, a window that is
/// missed in it; else `Done`. In no format is anything else written. What the missed windows take of memory is taken only
/// where they are asked for, and nothing else is met. The writer's count of failures must be below `u64::MAX` before the call.
///
/// # Errors
///
/// `BadRecord` at a record that is none of the script's, after the replies to the records before it. `BadRange` where no
/// record is bad and the range of the format can't be shown of the slots stepped, and it tells why: nothing was written, as
/// a format with a range has no replies. `Write` where the writer fails or takes nothing, and `NoMemory` where memory
/// is refused: a front of the text was written, the whole where memory is refused for the missed windows in the end.
pub fn run<W: Sink>(
    alloc: Global,
    script: &[u8],
    writer: &mut W,
    format: Format,
    titles: &Titles,
    origins: Option<&[Origin]>,
    fail_on: FailOn,
) -> Result<Ran, Fault>
    requires short { length script.now ≤ longest_script }
    requires writes { W.failed writer.old < 2 ^ 64 - 1 }
    ensures meaning { Answers (script_meaning format titles.now (option_map (λ o. o.now) origins.entry) script.now) result (W.contents writer.old) (W.contents writer.new) }
    ensures failing { IfOk result (λ ran. option_map run_status (fails_on fail_on script.now) ≡ Some ran.ending.status) }
    ensures unasked { fail_on ≡ on_nothing → IfOk result (λ ran. ran.ending.status ≡ Done) }
    ensures quiet { IfOk result (λ ran. ran.ending.notes.items ≡ []) }
    ensures carried { IfOk result (λ ran. IsOf (told script.now) ran.desk) }
    ensures outside { IsOutside result → Keeps (W.contents writer.old) (W.contents writer.new) }
    ensures read { IsPastReading result }
    ensures writes { CountsWrites result (W.failed writer.old) (W.failed writer.new) }
{
    match carry_out(alloc, script, writer, format, titles, origins) {
        Ok(desk) => {
            let ending = Ending::quiet(alloc, status_of(&desk, fail_on)?);
            Ok(Ran { ending, desk })
        }
        Err(fault) => Err(fault),
    }
}

/// Carries out a script of these bytes, and answers the desk at its end.
fn carry_out<W: Sink>(
    alloc: Global,
    bytes: &[u8],
    writer: &mut W,
    format: Format,
    titles: &Titles,
    origins: Option<&[Origin]>,
) -> Result<Desk, Fault>
    requires short { length bytes.now ≤ longest_script }
    requires writes { W.failed writer.old < 2 ^ 64 - 1 }
    ensures meaning { Answers (script_meaning format titles.now (option_map (λ o. o.now) origins.entry) bytes.now) result (W.contents writer.old) (W.contents writer.new) }
    ensures course { IfOk result (λ desk. script_course bytes.now ≡ Some (course_at desk)) }
    ensures carried { IfOk result (IsOf (told bytes.now)) }
    ensures read { IsPastReading result }
    ensures writes { CountsWrites result (W.failed writer.old) (W.failed writer.new) }
{
    // A copy of its own for each call: so the check follows both.
    let shown = format;
    match write_replies(alloc, bytes, writer, format) {
        Ok(desk) => end(alloc, bytes, desk, writer, shown, titles, origins),
        Err(fault) => Err(fault),
    }
}

/// Carries out a script of these bytes, writes its replies, and answers the desk at its end.
fn write_replies<W: Sink>(
    alloc: Global,
    bytes: &[u8],
    writer: &mut W,
    format: Format,
) -> Result<Desk, Fault>
    requires { W.failed writer.old < 2 ^ 64 - 1 }
    ensures replies { (titles : Titles) (refusals : List Refusal) → CarriesOut format titles refusals (told bytes.now) result (W.contents writer.old) (W.contents writer.new) }
    ensures carried { IfOk result (IsOf (told bytes.now)) }
    ensures read { IsPastReading result }
    ensures writes { CountsWrites result (W.failed writer.old) (W.failed writer.new) }
{
    let mut replies = ScriptReplies::open(alloc, bytes, format)?;
    write_pieces(alloc, writer, &mut replies)?;
    replies.finish()
}

/// Writes the report of a desk that carried this script out, where the format can be shown of the slots stepped, and answers the desk.
fn end<W: Sink>(
    alloc: Global,
    bytes: &[u8],
    desk: Desk,
    writer: &mut W,
    format: Format,
    titles: &Titles,
    origins: Option<&[Origin]>,
) -> Result<Desk, Fault>
    requires carried { IsOf (told bytes.now) desk }
    requires writes { W.failed writer.old < 2 ^ 64 - 1 }
    ensures report { Answers (report_meaning format titles.now (refusals_for format (option_map (λ o. o.now) origins.entry) bytes.now) (course_at desk)) result (W.contents writer.old) (W.contents writer.new) }
    ensures desk { IfOk result (λ d. d ≡ desk) }
    ensures read { IsPastReading result }
    ensures writes { CountsWrites result (W.failed writer.old) (W.failed writer.new) }
{
    match write_report(alloc, bytes, &desk, writer, format, titles, origins) {
        Ok(()) => Ok(desk),
        Err(fault) => Err(fault),
    }
}

/// Writes the report of a desk that carried this script out, where the format can be shown of the slots stepped.
fn write_report<W: Sink>(
    alloc: Global,
    bytes: &[u8],
    desk: &Desk,
    writer: &mut W,
    format: Format,
    titles: &Titles,
    origins: Option<&[Origin]>,
) -> Result<(), Fault>
    requires carried { IsOf (told bytes.now) desk.now }
    requires writes { W.failed writer.old < 2 ^ 64 - 1 }
    ensures report { Answers (report_meaning format titles.now (refusals_for format (option_map (λ o. o.now) origins.entry) bytes.now) (course_at desk.now)) result (W.contents writer.old) (W.contents writer.new) }
    ensures read { IsPastReading result }
    ensures writes { CountsWrites result (W.failed writer.old) (W.failed writer.new) }
{
    if let Some(fault) = format.range_fault(desk.now()) {
        return Err(Fault::BadRange(fault));
    }
    let refusals = refusals_for(alloc, format, origins, bytes, desk)?;
    let snapshot = desk.snapshot()?;
    let written = write_shown(
        alloc,
        &snapshot,
        desk.distance(),
        writer,
        format,
        titles,
        refusals,
    );
    drop(snapshot);
    Ok(written?)
}

/// Writes what stands after all replies, of what is seen. A call of its own, so that none of its ways out drops the snapshot.
fn write_shown<W: Sink>(
    alloc: Global,
    seen: &Snapshot,
    every: u64,
    writer: &mut W,
    format: Format,
    titles: &Titles,
    refusals: Vec<Refusal>,
) -> Result<(), OutputFault>
    requires fits { range_fault format seen.now.state.now ≡ None }
    requires writes { W.failed writer.old < 2 ^ 64 - 1 }
    ensures ok { OnOk result (Appends (W.contents writer.old) (W.contents writer.new) (report_text format every seen.now titles.now refusals.items)) }
    ensures err { OnErr result (TookFront (W.contents writer.old) (W.contents writer.new) (report_text format every seen.now titles.now refusals.items)) }
    ensures count { CountsOutput result (W.failed writer.old) (W.failed writer.new) }
{
    let report = report_pieces(alloc, seen, every, format, titles, refusals)?;
    write_whole(alloc, report, writer)
}

/// Writes all of some pieces, and lets them go, by a call of its own: so nobody else looks at their kinds.
pub(crate) fn write_whole<P: Pieces + Drop, W: Sink>(
    alloc: Global,
    mut pieces: P,
    writer: &mut W,
) -> Result<(), OutputFault>
    requires { W.failed writer.old < 2 ^ 64 - 1 }
    ensures ok { OnOk result (Appends (W.contents writer.old) (W.contents writer.new) (P.left pieces)) }
    ensures err { OnErr result (TookFront (W.contents writer.old) (W.contents writer.new) (P.left pieces)) }
    ensures count { CountsOutput result (W.failed writer.old) (W.failed writer.new) }
{
    write_pieces(alloc, writer, &mut pieces)
}
