ghost use Rattle.std.specs.Prelude.{◌≡◌, ◌-◌, ◌^◌, ◌<◌, ◌≤◌, [], length, Ok, IfOk, IfErr, OnOk, IsSome};
ghost use Rattle.pf_vocabulary.specs.Fault.Faults.{CountsWrites, IsPastReading, IsUnwritten};
ghost use Rattle.pf_plain_script.specs.Plain.{IsPlain, Plain};
ghost use Rattle.pf_stream.specs.Reading.{longest_script};
ghost use Rattle.pf_arguments.specs.Asked.{name_of, names_of};
ghost use Rattle.pf_cli.specs.Compared.{DifferenceMade, PairNotes, Shows, ShowsBytes, ShowsPlan};
ghost use Rattle.pf_cli.specs.Status.{ComparesBehind, ComparesScripts, seen_streams};

use crate::answering::write_answer;
use crate::noted::{Noted, ShownScript};
use crate::notes::{notes_behind, unread_note};
use crate::noting::Noting;
use crate::pair_notes::{join_notes, sizes_note};
use crate::script_source::{read_source, told_name};
use crate::versions::numbered_fault;
use pf_arguments::script_pair::ScriptPair;
use pf_arguments::telling::Telling;
use pf_change::compare::compare;
use pf_desk::snapshot::Snapshot;
use pf_plain_script::plain::{PlainScript, plain_script};
use pf_replies::at_end::seen_at_end;
use pf_stream::reading::LONGEST_SCRIPT;
use pf_stream::sink::Sink;
use pf_stream::source::Source;
use pf_vocabulary::fault::answer::Answer;
use pf_vocabulary::fault::ending::Ending;
use pf_vocabulary::fault::fault::Fault;
use pf_vocabulary::options::diff_options::DiffOptions;
use std::alloc::{AllocError, Global};
use std::rt::Files;

/// Compares the desks at the ends of two scripts, each of a file or all that the reader has left, and writes what differs; has the
/// notes of both, where they are asked for. Of the first script its snapshot and its notes alone are in memory when the second is
/// read, which is only where the first has no fault. The outcome is a fault of reading the first script and of carrying it out,
/// then of the second; `Write` where the writer fails or takes nothing: a front of the text was written. After any other nothing
/// was. The counts of failures of both streams must be below `u64::MAX` before the call.
pub(crate) fn compare_scripts<H: AllocGlobal + Files, R: Source, W: Sink>(
    rt: &H,
    pair: &ScriptPair,
    telling: Telling,
    reader: &mut R,
    writer: &mut W,
) -> Noted
    requires reads { R.failed reader.old < 2 ^ 64 - 1 }
    requires writes { W.failed writer.old < 2 ^ 64 - 1 }
    ensures done { ComparesScripts (names_of pair.now) telling result
        (seen_streams (R.remaining reader.old) (R.failed reader.old) (W.contents writer.old) (W.failed writer.old))
        (seen_streams (R.remaining reader.new) (R.failed reader.new) (W.contents writer.new) (W.failed writer.new)) }
    ensures unread { IsSome pair.now.first → IsSome pair.now.second → reader.new ≡ reader.old }
{
    let ShownScript { outcome, notes } = show_source(rt, &pair.first, telling, reader);
    match outcome {
        Ok(before) => compare_behind(rt, &before, notes, pair, telling, reader, writer),
        Err(fault) => Noted {
            outcome: Err(fault),
            notes,
        },
    }
}

/// Compares the desk at the end of the first script, which has these notes, with that of the second, which is read.
fn compare_behind<H: AllocGlobal + Files, R: Source, W: Sink>(
    rt: &H,
    before: &Snapshot,
    notes: Result<Vec<u8>, Fault>,
    pair: &ScriptPair,
    telling: Telling,
    reader: &mut R,
    writer: &mut W,
) -> Noted
    requires reads { R.failed reader.old < 2 ^ 64 - 1 }
    requires writes { W.failed writer.old < 2 ^ 64 - 1 }
    ensures done { ComparesBehind (names_of pair.now) telling (Ok before.now) notes result
        (seen_streams (R.remaining reader.old) (R.failed reader.old) (W.contents writer.old) (W.failed writer.old))
        (seen_streams (R.remaining reader.new) (R.failed reader.new) (W.contents writer.new) (W.failed writer.new)) }
    ensures writes { CountsWrites result.outcome (W.failed writer.old) (W.failed writer.new) }
    ensures unread { IsSome pair.now.second → reader.new ≡ reader.old }
{
    let second = show_source(rt, &pair.second, telling, reader);
    let ShownScript {
        outcome,
        notes: second_notes,
    } = second;
    match outcome {
        Ok(after) => {
            let made = compare_seen(rt.alloc(), before, &after, pair.options);
            let outcome = write_answer(made, writer);
            let notes = pair_notes(
                rt.alloc(),
                telling.notes,
                pair,
                before,
                &after,
                notes,
                second_notes,
                &outcome,
            );
            Noted { outcome, notes }
        }
        Err(fault) => Noted {
            outcome: Err(fault),
            notes: second_notes,
        },
    }
}

/// The notes of two scripts with this outcome, with those of each: none where none are asked for, or the output failed.
fn pair_notes(
    alloc: Global,
    asked: bool,
    pair: &ScriptPair,
    before: &Snapshot,
    after: &Snapshot,
    first: Result<Vec<u8>, Fault>,
    second: Result<Vec<u8>, Fault>,
    outcome: &Result<Ending, Fault>,
) -> Result<Vec<u8>, Fault>
    ensures { PairNotes (names_of pair.now) asked before.now (Ok after.now) first second outcome.now result }
{
    match outcome {
        Ok(_) if asked => {
            let first_name = told_name(&pair.first);
            let second_name = told_name(&pair.second);
            let sizes = sizes_note(alloc, first_name, second_name, before, after)?;
            join_notes(sizes, first, second)
        }
        _ => Ok(Vec::new(alloc)),
    }
}

/// What differs between two desks.
fn compare_seen(
    alloc: Global,
    before: &Snapshot,
    after: &Snapshot,
    options: DiffOptions,
) -> Result<Answer, Fault>
    ensures made { DifferenceMade options before.now after.now result }
    ensures unwritten { IfErr result IsUnwritten }
{
    match compare(alloc, before, after, options) {
        Ok(answer) => Ok(answer),
        Err(AllocError) => Err(Fault::NoMemory),
    }
}

/// What the desk shows at the end of the script of a file, or of the reader where none is named, and its notes, where they are asked
/// for.
fn show_source<H: AllocGlobal + Files, R: Source>(
    rt: &H,
    file: &Option<String>,
    telling: Telling,
    reader: &mut R,
) -> ShownScript
    requires { R.failed reader.old < 2 ^ 64 - 1 }
    ensures shows { Shows (name_of file.now) telling result.outcome result.notes (R.remaining reader.old) (R.failed reader.old) (R.remaining reader.new) (R.failed reader.new) }
    ensures reads { OnOk result.outcome (R.failed reader.new ≡ R.failed reader.old) }
    ensures kept { IsSome file.now → reader.new ≡ reader.old }
    ensures unwritten { IfErr result.outcome IsUnwritten }
{
    match read_source(rt, file, reader) {
        Ok(script) => {
            let outcome = show_script(rt.alloc(), &script);
            let noting = Noting::of_two(telling);
            let notes = notes_behind(rt.alloc(), noting, told_name(file), &script, &outcome);
            ShownScript { outcome, notes }
        }
        Err(fault) => ShownScript {
            outcome: Err(fault),
            notes: unread_note(rt, telling.whole, file, fault),
        },
    }
}

/// What the desk shows at the end of a script of these bytes, of any version.
fn show_script(alloc: Global, script: &[u8]) -> Result<Snapshot, Fault>
    ensures shows { ShowsBytes script.now result }
    ensures read { IsPastReading result }
    ensures unwritten { IfErr result IsUnwritten }
{
    match plain_script(alloc, script) {
        Ok(Some(plain)) => show_plain(alloc, &plain),
        Ok(None) => seen_at_end(alloc, script),
        Err(_) => Err(Fault::NoMemory),
    }
}

/// What it shows at the end of the plan to which this one belongs. A bad record has its number in that one.
fn show_plain(alloc: Global, plain: &PlainScript) -> Result<Snapshot, Fault>
    ensures shows { (p : Plain) → IsPlain plain.now p → ShowsPlan p result }
    ensures read { IsPastReading result }
    ensures unwritten { IfErr result IsUnwritten }
{
    if plain.text.len() > LONGEST_SCRIPT {
        return Err(Fault::TooLong);
    }
    match seen_at_end(alloc, &plain.text) {
        Ok(seen) => Ok(seen),
        Err(fault) => Err(numbered_fault(&plain.origins, fault)),
    }
}
