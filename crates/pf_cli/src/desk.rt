//! A session at a desk.
ghost use Rattle.std.specs.Prelude.{◌≡◌, ◌-◌, ◌^◌, ◌<◌, ◌&&◌, not, [], false, Ok, IfErr, IfOk};
ghost use Rattle.pf_stream.specs.HeldAnswers.Streams.{streams_of};
ghost use Rattle.pf_session_turns.specs.Opening.{opened};
ghost use Rattle.pf_arguments.specs.Asked.{desk_named, name_of};
ghost use Rattle.pf_cli.specs.Desks.{Begins, DoesNotBegin, HoldsDesk, IsUnopened, SatAlone, manner_of};
ghost use Rattle.pf_cli.specs.Journals.{HoldsWith};
ghost use Rattle.pf_cli.specs.Noted.{notes_in};
ghost use Rattle.pf_cli.specs.Source.{told_name};

use crate::ending::end;
use crate::kept_desk::hold_kept;
use crate::manner::manner_of;
use crate::noted::Noted;
use crate::notes::unread_note;
use crate::sat::{end_sat, outcome_of};
use crate::script_source::{read_file, told_name};
use pf_answers::manner::Manner;
use pf_arguments::desk_words::DeskWords;
use pf_journal_file::journals::Journals;
use pf_script_notes::behind_fault::fault_note;
use pf_session::session::Session;
use pf_session_turns::files::{FileSaver, Locks};
use pf_session_turns::opening::open_script;
use pf_session_turns::sitter::Sitter;
use pf_session_views::desk_views::DeskViews;
use pf_stream::held_answers::hold::hold;
use pf_stream::pipes::pipe::Pipe;
use pf_stream::sink::Sink;
use pf_stream::source::Source;
use pf_vocabulary::fault::fault::Fault;
use pf_vocabulary::fault::status::Status;
use std::alloc::Global;
use std::rt::Files;
use std::sync::Wait;

/// Why no session began, and what is told after that.
#[derive(Drop)]
struct Unbegun {
    fault: Fault,
    notes: Result<Vec<u8>, Fault>,
}

/// Holds the session that words ask for, with a journal where they name one, and answers the status. At a terminal prompts are told,
/// unless the words ask for quiet; where one could not be told, nothing more is told there.
pub(crate) fn hold_desk<
    H: AllocGlobal + Locks + Wait,
    R: Source,
    W: Pipe,
    F: Sink,
    J: Journals + Drop,
>(
    rt: &H,
    words: &DeskWords,
    is_terminal: bool,
    journals: J,
    reader: &mut R,
    writer: &mut W,
    faults: &mut F,
) -> u8
    requires reads { R.failed reader.old < 2 ^ 64 - 1 }
    requires writes { W.failed writer.old < 2 ^ 64 - 1 }
    requires tells { F.failed faults.old < 2 ^ 64 - 1 }
    ensures { HoldsWith J.File.seen J.File.may_leave J.File.is_usable J.File.is_clean J.File.is_mixing (name_of words.now.journal) (desk_named words.now) (is_terminal && not words.now.quiet)
        (W.closed writer.new) result
        (streams_of (R.remaining reader.old) (R.failed reader.old) (W.contents writer.old) (W.failed writer.old) (F.contents faults.old) (F.failed faults.old) false)
        (streams_of (R.remaining reader.new) (R.failed reader.new) (W.contents writer.new) (W.failed writer.new) (F.contents faults.new) (F.failed faults.new) false) }
{
    let prompts = is_terminal && !words.quiet;
    match &words.journal {
        Some(path) => hold_kept(
            rt,
            words,
            path.as_str(),
            journals,
            prompts,
            reader,
            writer,
            faults,
        ),
        None => hold_alone(rt, words, prompts, reader, writer, faults),
    }
}

/// Holds a session without a journal.
fn hold_alone<H: AllocGlobal + Locks + Wait, R: Source, W: Pipe, F: Sink>(
    rt: &H,
    words: &DeskWords,
    prompts: bool,
    reader: &mut R,
    writer: &mut W,
    faults: &mut F,
) -> u8
    requires reads { R.failed reader.old < 2 ^ 64 - 1 }
    requires writes { W.failed writer.old < 2 ^ 64 - 1 }
    requires tells { F.failed faults.old < 2 ^ 64 - 1 }
    ensures { HoldsDesk (desk_named words.now) prompts (W.closed writer.new) result
        (streams_of (R.remaining reader.old) (R.failed reader.old) (W.contents writer.old) (W.failed writer.old) (F.contents faults.old) (F.failed faults.old) false)
        (streams_of (R.remaining reader.new) (R.failed reader.new) (W.contents writer.new) (W.failed writer.new) (F.contents faults.new) (F.failed faults.new) false) }
{
    match begin(rt, words) {
        Ok(session) => {
            let mut sitter = Sitter::new(session, FileSaver::new(rt), DeskViews);
            sit_down(rt, &mut sitter, prompts, reader, writer, faults)
        }
        Err(Unbegun { fault, notes }) => {
            let outcome = Err(fault);
            let closed = writer.is_closed();
            end(
                Noted { outcome, notes },
                closed,
                Status::StreamFailed,
                faults,
            )
        }
    }
}

/// Answers the lines that come in, and then tells what that came to.
fn sit_down<H: AllocGlobal + Locks + Wait, R: Source, W: Pipe, F: Sink>(
    rt: &H,
    sitter: &mut Sitter<FileSaver<'_, H>, DeskViews>,
    prompts: bool,
    reader: &mut R,
    writer: &mut W,
    faults: &mut F,
) -> u8
    requires reads { R.failed reader.old < 2 ^ 64 - 1 }
    requires writes { W.failed writer.old < 2 ^ 64 - 1 }
    requires tells { F.failed faults.old < 2 ^ 64 - 1 }
    ensures { SatAlone sitter.old prompts (W.closed writer.new) result
        (streams_of (R.remaining reader.old) (R.failed reader.old) (W.contents writer.old) (W.failed writer.old) (F.contents faults.old) (F.failed faults.old) false)
        (streams_of (R.remaining reader.new) (R.failed reader.new) (W.contents writer.new) (W.failed writer.new) (F.contents faults.new) (F.failed faults.new) false) }
{
    let failed = faults.failures();
    let going = hold(rt, sitter, reader, writer, faults, prompts);
    let outcome = outcome_of(rt.alloc(), going, sitter.has_bad());
    end_sat(rt.alloc(), outcome, failed, writer.is_closed(), faults)
}

/// The session as it begins: after the records of a script, where one is named.
///
/// # Errors
///
/// Where the script can't be read or has a bad record, and where memory is refused.
fn begin<H: AllocGlobal + Files>(rt: &H, words: &DeskWords) -> Result<Session, Unbegun>
    ensures begun { IfOk result (λ s. Begins (manner_of (desk_named words.now)) (desk_named words.now).script s) }
    ensures unbegun { IfErr result (λ u. DoesNotBegin (manner_of (desk_named words.now)) (desk_named words.now).script u.fault u.notes) }
{
    let alloc = rt.alloc();
    let manner = manner_of(words);
    let Some(path) = &words.script else {
        return match Session::new(alloc, manner) {
            Ok(session) => Ok(session),
            Err(_) => Err(untold(alloc, Fault::NoMemory)),
        };
    };
    match read_file(rt, path.as_str()) {
        Ok(script) => begin_with(alloc, words, manner, &script),
        Err(reading) => {
            let fault = Fault::from(reading);
            let notes = unread_note(rt, true, &words.script, fault);
            Err(Unbegun { fault, notes })
        }
    }
}

/// The session after the records of a script of these bytes.
fn begin_with(
    alloc: Global,
    words: &DeskWords,
    manner: Manner,
    script: &[u8],
) -> Result<Session, Unbegun>
    ensures opened { IfOk result (λ s. opened manner script.now ≡ Ok s) }
    ensures unopened { IfErr result (λ u. IsUnopened manner (told_name (name_of words.now.script)) script.now u.fault u.notes) }
{
    let hints = !manner.quiet;
    match open_script(alloc, manner, script) {
        Ok(session) => Ok(session),
        Err(fault) => {
            let notes = fault_note(alloc, told_name(&words.script), script, hints, None, fault);
            Err(Unbegun { fault, notes })
        }
    }
}

/// A fault after which nothing is told.
fn untold(alloc: Global, fault: Fault) -> Unbegun
    ensures fault { result.fault ≡ fault }
    ensures notes { notes_in result.notes ≡ [] }
{
    let notes = Ok(Vec::new(alloc));
    Unbegun { fault, notes }
}
