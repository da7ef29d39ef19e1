ghost use Rattle.std.specs.Prelude.{◌≡◌, ◌++◌, ℕ, List, false, Err, IfOk, OnErr, OnOk};
ghost use Rattle.std.specs.Option.{option_map};
ghost use Rattle.pf_answers.specs.Shown.{shown_text};
ghost use Rattle.pf_session_lines.specs.Words.{help_text};
ghost use Rattle.pf_session.specs.declared.stop.Stop.TheVariants as stop;
ghost use Rattle.pf_session_turns.specs.Turns.{GoesOn, IsLeftAmid, heard_of, line_in};

use crate::save::save_script;
use crate::saver::Saver;
use crate::shown::tell_wanted;
use pf_session::session::Session;
use pf_session::shows::Shows;
use pf_session::stop::Stop;
use pf_session_lines::hear::hear;
use pf_session_lines::heard::Heard;
use pf_session_lines::reason::help;
use pf_stream::dialogue::answers::Going;
use std::alloc::AllocError;

/// Answers a line as what it is, as it came.
///
/// # Errors
///
/// `NoMemory`: nothing has changed. `Lost`: a record left the session in mid-change. The text and who saves are as before at both.
pub(crate) fn turn<S: Saver, V: Shows>(
    session: &mut Session,
    saver: &mut S,
    views: &V,
    line: &[u8],
    text: &mut Vec<u8>,
) -> Result<Going, Stop>
    ensures ok { IfOk result (λ going. (answer : List ℕ) × GoesOn V.shows S.saves session.old saver.old (heard_of session.old line.now) going answer session.new saver.new
        × (text.new.items ≡ text.old.items ++ answer)) }
    ensures err { result ≡ Err stop.NoMemory → session.new ≡ session.old }
    ensures lost { result ≡ Err stop.Lost → IsLeftAmid session.old (heard_of session.old line.now) session.new }
    ensures saver { OnErr result (saver.new ≡ saver.old) }
    ensures same { OnErr result (text.new.items ≡ text.old.items) }
{
    let Some(line) = without_end(session.manner().whole, line) else {
        session.take_bad(0, b"it has no line end", b"", text)?;
        return Ok(Going::On);
    };
    let heard = hear(
        session.alloc(),
        session.is_first(),
        session.progress(),
        line,
    )?;
    take(session, saver, views, heard, text)
}

/// A line as it came, without its line feed: none where it lacks that and whole lines are wanted.
fn without_end(whole: bool, line: &[u8]) -> Option<&[u8]>
    ensures { option_map (λ l. l.now) result ≡ line_in whole line.now }
{
    match line {
        [front @ .., b'\n'] => Some(front),
        _ if whole => None,
        _ => Some(line),
    }
}

/// Goes on with what was heard.
fn take<S: Saver, V: Shows>(
    session: &mut Session,
    saver: &mut S,
    views: &V,
    heard: Heard,
    text: &mut Vec<u8>,
) -> Result<Going, Stop>
    ensures ok { IfOk result (λ going. (answer : List ℕ) × GoesOn V.shows S.saves session.old saver.old heard going answer session.new saver.new
        × (text.new.items ≡ text.old.items ++ answer)) }
    ensures err { result ≡ Err stop.NoMemory → session.new ≡ session.old }
    ensures lost { result ≡ Err stop.Lost → IsLeftAmid session.old heard session.new }
    ensures saver { OnErr result (saver.new ≡ saver.old) }
    ensures same { OnErr result (text.new.items ≡ text.old.items) }
{
    match heard {
        Heard::Nothing => {}
        Heard::Heading => session.take_heading(text)?,
        Heard::Record(said, line) => session.take_record(said, line.as_slice(), text)?,
        Heard::Shown(wanted) => tell_wanted(session, views, &wanted, text)?,
        Heard::Reverse(reversal) => session.take_reversal(reversal, text)?,
        Heard::Save(file) => save_script(session, saver, views, file.as_slice(), text)?,
        Heard::Help => tell_help(session, text)?,
        Heard::Quit => return Ok(Going::Ends),
        Heard::Bad {
            field,
            text: words,
            hint,
        } => session.take_bad(field, words.as_slice(), hint.as_slice(), text)?,
    }
    Ok(Going::On)
}

/// Tells the words.
fn tell_help(session: &Session, text: &mut Vec<u8>) -> Result<(), AllocError>
    ensures text { OnOk result (text.new.items ≡ text.old.items ++ shown_text session.now.manner.json false help_text) }
    ensures same { OnErr result (text.new.items ≡ text.old.items) }
{
    let words = help(session.alloc())?;
    session.tell_shown(false, &words, text)
}
