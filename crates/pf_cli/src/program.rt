ghost use Rattle.std.specs.Prelude.{false, true, not, None, ◌&&◌, ◌≡◌, ◌≢◌, ◌⊎◌, ◌^◌, ◌-◌, ◌<◌, ◌≤◌, ◌+◌, [], map, IfOk, IfSome, IsSome};
ghost use Rattle.std.specs.IoError.{error_kind};
ghost use Rattle.std.specs.Io.KnownBytes.{Keeps};
ghost use Rattle.pf_stream.specs.HeldAnswers.Streams.{streams_of};
ghost use Rattle.pf_cli.specs.Journals.{HoldsWith};
ghost use Rattle.pf_arguments.specs.Asked.{IsSound, desk_asked, name_of, reads_input, task_asked, telling_asked};
ghost use Rattle.pf_arguments.specs.Outputs.{output_asked};
ghost use Rattle.pf_cli.specs.Noted.{notes_in};
ghost use Rattle.pf_cli.specs.Tasks.{IsOfScript, IsQuietIfDone};
ghost use Rattle.pf_cli.specs.Status.{AnswersWords, IsDone, IsPrompted, IsWritten, Tells, prompt_for, prompt_text, seen_streams, status_of_words, told_of};

use crate::desk::hold_desk;
use crate::ending::{end, end_unwritten, tell, tell_fault, tell_text};
use crate::gone::{gone_diff, gone_of};
use crate::noted::Noted;
use crate::notes::unread_note;
use crate::output_file::OutputFile;
use crate::script_source::{read_source, told_name};
use crate::two_scripts::compare_scripts;
use crate::versions::do_script;
use pf_arguments::output_words::read_output;
use pf_arguments::request::{Request, WordsFault};
use pf_arguments::task::Task;
use pf_arguments::telling::Telling;
use pf_arguments::words::read_words;
use pf_journal_file::journals::Journals;
use pf_session_turns::files::Locks;
use pf_stream::pipes::kept_writer::KeptWriter;
use pf_stream::pipes::pipe::Pipe;
use pf_stream::sink::Sink;
use pf_stream::source::Source;
use pf_stream::writing::write_out;
use pf_vocabulary::fault::fault::Fault;
use pf_vocabulary::fault::status::Status;
use std::alloc::{AllocError, Global};
use std::convert::AsStr;
use std::io;
use std::io::{ErrorKind, Write};
use std::rt::Files;
use std::sync::Wait;
use std::thread::Threads;

/// What a terminal is told before a script is read from it.
pub const PROMPT: &str =
    "reading the script from the terminal: end it with Ctrl-D; pfair --help tells more\n";

/// So it is of a list of tasks.
pub const LIST_PROMPT: &str =
    "reading the list from the terminal: end it with Ctrl-D; pfair --help tells more\n";

/// So it is where either may come.
pub const EITHER_PROMPT: &str =
    "reading the script or list from the terminal: end it with Ctrl-D; pfair --help tells more\n";

// What is told where a word is no text.
const NO_TEXT: &str = "error: invalid UTF-8 was detected in one or more arguments";

/// Does what the program's words say, its own name not among them: runs a script and writes its answer to the writer, or
/// checks it and writes what it finds there, or writes what its last records changed, or what differs between two, or whether it fits, or drills it
/// at gates that are always open and writes what came of that, or converts a list of tasks, or holds a session at a desk, on the file of `journals` that they name as its journal, if one, or writes help or the version. The
/// script is that of the file that the words name, and else the reader's, and so is the list; a drill's is always the reader's.
/// Of two the first is read first, and the second where the first has no fault. Without words the script is run in the format
/// `Tables`. The text of a fault goes to `faults`, whose own faults are passed over, and so do notes, where the words ask for them
/// or name a file: which file, record or word a fault is of, and after a script that was carried out what was refused, denied and
/// missed. Where the output fails since nobody reads it any more, nothing is told. Answers the status to exit with: 0 where the
/// script was done, a check found no fault, a plan or a quantum fits, or help was shown, 1 where the script has a bad record or is
/// too long, where the list has a fault, or where something differs and the words ask for a status of that, 2 where the words are
/// refused or mistaken, or ask for slots that can't be shown, 3 where the reader or the writer failed or the file can't be opened
/// or read, 4 where memory was refused, or a drill has no place for a reader, 6 where the script was done, all was written, and
/// the run fails on what the words list, or no plan fits. Words that ask for a session, those that ask for a run, a check, a diff or a conversion and name no
/// file, or `-` as one of two, or for a drill, and no others, have the reader read; with any other the reader is as before. Where
/// the words ask for a drill, and only there, threads are started, and the call waits for them. A file that they name for the answer is
/// left to `answer_words`. The counts of failures of all
/// three streams must be below `u64::MAX` before the call.
pub fn main_words<
    H: AllocGlobal + Locks + Threads + Wait + Sync,
    S: AsStr,
    R: Source,
    W: Pipe,
    F: Sink,
    J: Journals + Drop,
>(
    rt: &H,
    words: &[S],
    is_terminal: bool,
    journals: J,
    reader: &mut R,
    writer: &mut W,
    faults: &mut F,
) -> u8
    requires reads { R.failed reader.old < 2 ^ 64 - 1 }
    requires writes { W.failed writer.old < 2 ^ 64 - 1 }
    requires tells { F.failed faults.old < 2 ^ 64 - 1 }
    ensures streams { AnswersWords (map S.text words.now) (W.closed writer.new) result
        (seen_streams (R.remaining reader.old) (R.failed reader.old) (W.contents writer.old) (W.failed writer.old))
        (seen_streams (R.remaining reader.new) (R.failed reader.new) (W.contents writer.new) (W.failed writer.new))
        (Tells (F.contents faults.old) (F.contents faults.new) (F.failed faults.old) (F.failed faults.new))
        (λ desk. HoldsWith J.File.seen J.File.may_leave J.File.is_usable J.File.is_clean J.File.is_mixing desk.journal desk (is_terminal && not desk.quiet) (W.closed writer.new) result
        (streams_of (R.remaining reader.old) (R.failed reader.old) (W.contents writer.old) (W.failed writer.old) (F.contents faults.old) (F.failed faults.old) false)
        (streams_of (R.remaining reader.new) (R.failed reader.new) (W.contents writer.new) (W.failed writer.new) (F.contents faults.new) (F.failed faults.new) false)) }
    ensures unread { reads_input (map S.text words.now) ≡ false → reader.new ≡ reader.old }
    ensures quiet { IfSome (task_asked (map S.text words.now)) IsOfScript → (telling_asked (map S.text words.now)).notes ≡ false → desk_asked (map S.text words.now) ≡ None →
        result ≡ 0 → Keeps (F.contents faults.old) (F.contents faults.new) }
{
    match read_words(rt.alloc(), words) {
        Ok(Request::Do(task, file, telling)) => {
            let gone = gone_of(&task);
            let noted = do_asked(rt, task, &file, telling, reader, writer);
            end(noted, writer.is_closed(), gone, faults)
        }
        Ok(Request::Compare(pair, telling)) => {
            let gone = gone_diff(pair.options);
            let noted = compare_scripts(rt, &pair, telling, reader, writer);
            end(noted, writer.is_closed(), gone, faults)
        }
        Ok(Request::Sit(desk)) => {
            hold_desk(rt, &desk, is_terminal, journals, reader, writer, faults)
        }
        Ok(Request::Show(text)) => show(text.as_str(), writer, faults),
        Err(fault) => refuse(&fault, faults),
    }
}

/// Does what the program's words say, as `main_words` does; but where they name a file for the answer by `--output`, it is written there,
/// whole or not at all, and the writer is as it was. Answers the status to exit with: that of `main_words`, or 3 where the file can't be
/// written, which is told, or 4 where memory was refused for its name. The counts of failures of all three streams must be below
/// `u64::MAX` before the call.
pub fn answer_words<
    H: AllocGlobal + Locks + Threads + Wait + Sync,
    S: AsStr,
    R: Source,
    W: Pipe,
    F: Sink,
    J: Journals + Drop,
>(
    rt: &H,
    words: &[S],
    is_terminal: bool,
    journals: J,
    reader: &mut R,
    writer: &mut W,
    faults: &mut F,
) -> u8
    requires reads { R.failed reader.old < 2 ^ 64 - 1 }
    requires writes { W.failed writer.old < 2 ^ 64 - 1 }
    requires tells { F.failed faults.old < 2 ^ 64 - 1 }
    ensures streams { output_asked (map S.text words.now) ≡ None → ((result ≡ 4) × (reader.new ≡ reader.old) × (writer.new ≡ writer.old)) ⊎ AnswersWords (map S.text words.now) (W.closed writer.new) result
        (seen_streams (R.remaining reader.old) (R.failed reader.old) (W.contents writer.old) (W.failed writer.old))
        (seen_streams (R.remaining reader.new) (R.failed reader.new) (W.contents writer.new) (W.failed writer.new))
        (Tells (F.contents faults.old) (F.contents faults.new) (F.failed faults.old) (F.failed faults.new))
        (λ desk. HoldsWith J.File.seen J.File.may_leave J.File.is_usable J.File.is_clean J.File.is_mixing desk.journal desk (is_terminal && not desk.quiet) (W.closed writer.new) result
        (streams_of (R.remaining reader.old) (R.failed reader.old) (W.contents writer.old) (W.failed writer.old) (F.contents faults.old) (F.failed faults.old) false)
        (streams_of (R.remaining reader.new) (R.failed reader.new) (W.contents writer.new) (W.failed writer.new) (F.contents faults.new) (F.failed faults.new) false)) }
    ensures unwritten { IsSome (output_asked (map S.text words.now)) → writer.new ≡ writer.old }
    ensures unread { reads_input (map S.text words.now) ≡ false → reader.new ≡ reader.old }
{
    match read_output(rt.alloc(), words) {
        Ok(None) => main_words(rt, words, is_terminal, journals, reader, writer, faults),
        Ok(Some(output)) => {
            let mut file = OutputFile::new(rt, output.path.as_str());
            let status = {
                let mut kept = KeptWriter::new(&mut file);
                main_words(rt, words, is_terminal, journals, reader, &mut kept, faults)
            };
            file.finish(status, output.is_test, faults)
        }
        Err(AllocError) => tell_no_memory(faults),
    }
}

/// Does a task with the script of a file, or of the reader where none is named, and has its notes, where they are asked for.
fn do_asked<H: AllocGlobal + Files + Threads + Wait + Sync, R: Source, W: Sink>(
    rt: &H,
    task: Task,
    file: &Option<String>,
    telling: Telling,
    reader: &mut R,
    writer: &mut W,
) -> Noted
    requires sound { IsSound task }
    requires reads { R.failed reader.old < 2 ^ 64 - 1 }
    requires writes { W.failed writer.old < 2 ^ 64 - 1 }
    ensures done { IsDone task (name_of file.now) telling result
        (seen_streams (R.remaining reader.old) (R.failed reader.old) (W.contents writer.old) (W.failed writer.old))
        (seen_streams (R.remaining reader.new) (R.failed reader.new) (W.contents writer.new) (W.failed writer.new)) }
    ensures unread { IsSome file.now → reader.new ≡ reader.old }
    ensures quiet { IsOfScript task → IfOk result.outcome IsQuietIfDone }
    ensures unasked { telling.notes ≡ false → IfOk result.outcome (λ _. notes_in result.notes ≡ []) }
{
    match read_source(rt, file, reader) {
        Ok(script) => do_script(rt, task, told_name(file), telling, &script, writer),
        Err(fault) => Noted {
            outcome: Err(fault),
            notes: unread_note(rt, telling.whole, file, fault),
        },
    }
}

/// Tells a terminal how a script or a list ends that is read from it, where the words have one read and name none, and do not ask for
/// quiet. The count of failures must be below `u64::MAX` before the call.
#[tactic(auto, using(crate::proofs::Telling::told_none))]
pub fn prompt_words<H: AllocGlobal, S: AsStr, F: Sink>(rt: &H, words: &[S], faults: &mut F)
    requires { F.failed faults.old < 2 ^ 64 - 1 }
    ensures told { IsPrompted (telling_asked (map S.text words.now)).prompt (prompt_for (task_asked (map S.text words.now))) (Tells (F.contents faults.old) (F.contents faults.new) (F.failed faults.old) (F.failed faults.new)) }
    ensures few { F.failed faults.new ≤ F.failed faults.old + 1 }
{
    if let Some(text) = prompt_asked(rt.alloc(), words) {
        tell_text(text.as_bytes(), faults);
    }
}

/// What a terminal is told where words have a script or a list read and name none, and do not ask for quiet; where memory is refused
/// for them, they do not.
fn prompt_asked<S: AsStr>(alloc: Global, words: &[S]) -> Option<&'static str>
    ensures asked { IfSome result (λ text. (telling_asked (map S.text words.now)).prompt ≡ true) }
    ensures text { IfSome result (λ text. text.now ≡ prompt_for (task_asked (map S.text words.now))) }
{
    match read_words(alloc, words) {
        Ok(Request::Do(task, _, telling)) if telling.prompt => Some(prompt_text(&task)),
        _ => None,
    }
}

/// What a terminal is told before what this task takes is read from it.
fn prompt_text(task: &Task) -> &'static str
    ensures { result.now ≡ prompt_text task.now }
{
    match task {
        Task::Convert(_) => LIST_PROMPT,
        Task::Fit(_) => EITHER_PROMPT,
        _ => PROMPT,
    }
}

/// Tells why the program's words could not be had, and answers the status to exit with: 4 where memory was refused,
/// and else 2, since a word is no text.
pub fn tell_unread<F: Write>(fault: &io::Error, faults: &mut F) -> u8
    ensures memory { error_kind fault.now ≡ ErrorKind.OutOfMemory → result ≡ 4 }
    ensures no_text { error_kind fault.now ≢ ErrorKind.OutOfMemory → result ≡ 2 }
{
    if fault.kind() == ErrorKind::OutOfMemory {
        return tell_no_memory(faults);
    }
    tell(&NO_TEXT, faults);
    Status::BadWords.number()
}

/// Tells that memory was refused for what the program's words ask for, and answers the status to exit with.
pub fn tell_no_memory<F: Write>(faults: &mut F) -> u8
    ensures { result ≡ 4 }
{
    tell(&Fault::NoMemory, faults);
    Status::NoMemory.number()
}

/// Writes a text that was asked for, and answers the status.
fn show<W: Pipe, F: Sink>(text: &str, writer: &mut W, faults: &mut F) -> u8
    requires writes { W.failed writer.old < 2 ^ 64 - 1 }
    requires tells { F.failed faults.old < 2 ^ 64 - 1 }
    ensures shown { IsWritten (W.closed writer.new) result (W.contents writer.old) (W.contents writer.new) (W.failed writer.old) (W.failed writer.new) text.now }
    ensures quiet { result ≡ 0 → Keeps (F.contents faults.old) (F.contents faults.new) }
{
    match write_out(writer, text.as_bytes()) {
        Ok(()) => Status::Done.number(),
        Err(_) => end_unwritten(b"", writer.is_closed(), Status::Done, faults),
    }
}

/// Tells why the words ask for nothing, and answers the status.
fn refuse<F: Sink>(fault: &WordsFault, faults: &mut F) -> u8
    requires { F.failed faults.old < 2 ^ 64 - 1 }
    ensures status { result ≡ status_of_words fault.now }
    ensures told { Tells (F.contents faults.old) (F.contents faults.new) (F.failed faults.old) (F.failed faults.new) (told_of fault.now) }
{
    match fault {
        WordsFault::Refused(text) => tell_text(text, faults),
        WordsFault::Mistaken(line) => tell_text(line, faults),
        WordsFault::NoMemory => {
            tell_fault(Fault::NoMemory, b"", faults);
            return Status::NoMemory.number();
        }
    }
    Status::BadWords.number()
}
