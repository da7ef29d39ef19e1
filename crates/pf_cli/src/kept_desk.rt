//! A session whose records a journal keeps.
ghost use Rattle.std.specs.Prelude.{◌≡◌, ◌-◌, ◌^◌, ◌<◌, false, IfSome};
ghost use Rattle.pf_stream.specs.HeldAnswers.Streams.{streams_of};
ghost use Rattle.pf_journal_file.specs.Faults.{fault_of_adding};
ghost use Rattle.pf_arguments.specs.Asked.{desk_named};
ghost use Rattle.pf_cli.specs.Journals.{CameToKept, HasSatOn, HoldsKept};

use crate::ending::{end, tell_text};
use crate::kept_made::{Made, make_of};
use crate::sat::{end_sat, outcome_of};
use pf_arguments::desk_words::DeskWords;
use pf_journal::journal_error::JournalError;
use pf_journal_file::journal_fault::JournalFault;
use pf_journal_file::journals::Journals;
use pf_journal_session::Disk;
use pf_session_turns::files::Locks;
use pf_stream::dialogue::answers::Going;
use pf_stream::dialogue::fault::SitFault;
use pf_stream::held_answers::hold::hold;
use pf_stream::pipes::pipe::Pipe;
use pf_stream::sink::Sink;
use pf_stream::source::Source;
use pf_vocabulary::fault::ending::Ending;
use pf_vocabulary::fault::fault::Fault;
use pf_vocabulary::fault::status::Status;
use std::alloc::Global;
use std::sync::Wait;

/// Holds the session that words ask for on the file of this path, and answers the status.
pub(crate) fn hold_kept<H: AllocGlobal + Locks + Wait, R: Source, W: Pipe, F: Sink, J: Journals>(
    rt: &H,
    words: &DeskWords,
    path: &str,
    journals: J,
    prompts: bool,
    reader: &mut R,
    writer: &mut W,
    faults: &mut F,
) -> u8
    requires reads { R.failed reader.old < 2 ^ 64 - 1 }
    requires writes { W.failed writer.old < 2 ^ 64 - 1 }
    requires tells { F.failed faults.old < 2 ^ 64 - 1 }
    ensures { HoldsKept J.File.seen J.File.may_leave J.File.is_usable J.File.is_clean J.File.is_mixing (desk_named words.now) path.now prompts (W.closed writer.new) result
        (streams_of (R.remaining reader.old) (R.failed reader.old) (W.contents writer.old) (W.failed writer.old) (F.contents faults.old) (F.failed faults.old) false)
        (streams_of (R.remaining reader.new) (R.failed reader.new) (W.contents writer.new) (W.failed writer.new) (F.contents faults.new) (F.failed faults.new) false) }
{
    match make_of(rt, words, path, journals) {
        Ok(mut made) => {
            let notes = !words.quiet;
            let status = sit_noted(rt, &mut made, path, notes, prompts, reader, writer, faults);
            drop(made);
            status
        }
        Err(noted) => {
            let closed = writer.is_closed();
            end(noted, closed, Status::StreamFailed, faults)
        }
    }
}

/// Tells how much the journal has, answers the lines that come in, and then tells what that came to.
fn sit_noted<H: AllocGlobal + Locks + Wait, R: Source, W: Pipe, F: Sink, D: Disk>(
    rt: &H,
    made: &mut Made<'_, H, D>,
    path: &str,
    notes: bool,
    prompts: bool,
    reader: &mut R,
    writer: &mut W,
    faults: &mut F,
) -> u8
    requires reads { R.failed reader.old < 2 ^ 64 - 1 }
    requires writes { W.failed writer.old < 2 ^ 64 - 1 }
    requires tells { F.failed faults.old < 2 ^ 64 - 1 }
    ensures { HasSatOn D.seen D.may_leave D.is_clean D.is_mixing path.now notes made.old.recorder made.old.note.items prompts (W.closed writer.new) result
        (streams_of (R.remaining reader.old) (R.failed reader.old) (W.contents writer.old) (W.failed writer.old) (F.contents faults.old) (F.failed faults.old) false)
        (streams_of (R.remaining reader.new) (R.failed reader.new) (W.contents writer.new) (W.failed writer.new) (F.contents faults.new) (F.failed faults.new) false) }
{
    let failed = faults.failures();
    tell_text(&made.note, faults);
    let prompted = prompts && faults.failures() == failed;
    let going = hold(rt, &mut made.recorder, reader, writer, faults, prompted);
    let has_bad = made.recorder.machine().has_bad();
    let outcome = outcome_kept(
        rt.alloc(),
        going,
        has_bad,
        made.recorder.fault(),
        path.as_bytes(),
        notes,
    );
    end_sat(rt.alloc(), outcome, failed, writer.is_closed(), faults)
}

/// What a sitting came to, where a line was bad or none was; where what was answered could not be kept, `lost` says why.
fn outcome_kept(
    alloc: Global,
    going: Result<Going, SitFault>,
    has_bad: bool,
    lost: Option<JournalError>,
    path: &[u8],
    notes: bool,
) -> Result<Ending, Fault>
    ensures { CameToKept path.now notes lost going has_bad result }
{
    match going {
        Err(SitFault::Unkept) => fault_lost(lost).outcome(alloc, path, notes),
        _ => outcome_of(alloc, going, has_bad),
    }
}

/// Why what was answered could not be kept.
fn fault_lost(lost: Option<JournalError>) -> JournalFault
    ensures { IfSome lost (λ error. result ≡ fault_of_adding error) }
{
    JournalFault::of_adding(lost.unwrap_or(JournalError::TooLong))
}
