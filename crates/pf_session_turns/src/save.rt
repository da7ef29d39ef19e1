ghost use Rattle.std.specs.Prelude.{◌≡◌, ◌++◌, Bool, ℕ, List, true, false, IfOk, OnErr, OnOk};
ghost use Rattle.pf_session_lines.specs.declared.showing.Showing.{Showing};
ghost use Rattle.pf_session_lines.specs.declared.wanted.Wanted.TheVariants.{Report};
ghost use Rattle.pf_vocabulary.specs.declared.options.format.Format.TheVariants.{Script};
ghost use Rattle.pf_stream.specs.declared.dialogue.answers.Going.TheVariants.{On};
ghost use Rattle.pf_session_turns.specs.Turns.{Saves, saved_text};

use crate::saver::Saver;
use pf_answers::telling::{push_told, taken};
use pf_session::session::Session;
use pf_session::shows::Shows;
use pf_session_lines::showing::Showing;
use pf_session_lines::wanted::Wanted;
use pf_text::file_name::push_file;
use pf_vocabulary::options::format::Format;
use std::alloc::{AllocError, Global};

/// Writes what the script shows as a script to the file of this name, and tells whether it was written.
///
/// # Errors
///
/// Where memory is refused: nothing has changed, and nothing was written.
pub(crate) fn save_script<S: Saver, V: Shows>(
    session: &mut Session,
    saver: &mut S,
    views: &V,
    file: &[u8],
    text: &mut Vec<u8>,
) -> Result<(), AllocError>
    ensures ok { OnOk result ((made : Showing) × (answer : List ℕ) × V.shows (Report Script) session.old made
        × Saves S.saves session.old saver.old file.now made On answer session.new saver.new × (text.new.items ≡ text.old.items ++ answer)) }
    ensures err { OnErr result (session.new ≡ session.old) }
    ensures saver { OnErr result (saver.new ≡ saver.old) }
    ensures same { OnErr result (text.new.items ≡ text.old.items) }
{
    let wanted = Wanted::Report(Format::Script);
    match views.show(session, &wanted)? {
        Showing::Text(script) => {
            let alloc = session.alloc();
            let json = session.manner().json;
            save_text(alloc, json, saver, file, &script, text)
        }
        Showing::Bad(words) => session.take_bad(0, &words, b"", text),
    }
}

/// Writes a text to the file of this name, and tells whether it was written.
fn save_text<S: Saver>(
    alloc: Global,
    json: bool,
    saver: &mut S,
    file: &[u8],
    script: &[u8],
    text: &mut Vec<u8>,
) -> Result<(), AllocError>
    ensures ok { OnOk result ((is_saved : Bool) × S.saves saver.old file.now script.now is_saved saver.new
        × (text.new.items ≡ text.old.items ++ saved_text json file.now is_saved)) }
    ensures saver { OnErr result (saver.new ≡ saver.old) }
    ensures same { OnErr result (text.new.items ≡ text.old.items) }
{
    let saved = saved_text(alloc, json, file)?;
    let failed = failed_text(alloc, json, file)?;
    text.reserve(saved.len().max(failed.len()))?;
    let answer = if saver.save(file, script) {
        saved
    } else {
        failed
    };
    if text.extend_from_slice(&answer).is_err() {
        unreachable!();
    }
    Ok(())
}

/// That the file of this name was written.
fn saved_text(alloc: Global, json: bool, file: &[u8]) -> Result<Vec<u8>, AllocError>
    ensures { IfOk result (λ answer. answer.items ≡ saved_text json file.now true) }
{
    let mut answer = Vec::new(alloc);
    if json {
        answer.extend_from_slice(taken(json))?;
        return Ok(answer);
    }
    answer.extend_from_slice(b"saved ")?;
    push_file(&mut answer, file)?;
    answer.extend_from_slice(b"\n")?;
    Ok(answer)
}

/// That it was not.
fn failed_text(alloc: Global, json: bool, file: &[u8]) -> Result<Vec<u8>, AllocError>
    ensures { IfOk result (λ answer. answer.items ≡ saved_text json file.now false) }
{
    let mut words = Vec::from_slice(alloc, b"cannot write ")?;
    push_file(&mut words, file)?;
    let mut answer = Vec::new(alloc);
    push_told(&mut answer, json, &words)?;
    Ok(answer)
}
