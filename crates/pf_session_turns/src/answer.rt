ghost use Rattle.std.specs.Prelude.{◌≡◌, ◌++◌, ℕ, List, IfOk, OnErr, codes};
ghost use Rattle.pf_answers.specs.Telling.{told_text};
ghost use Rattle.pf_stream.specs.declared.dialogue.answers.Going.TheVariants.{On};
ghost use Rattle.pf_session_turns.specs.Turns.{AnswersLine, IsStopped};

use crate::saver::Saver;
use crate::turn::turn;
use pf_session::session::Session;
use pf_session::shows::Shows;
use pf_session::stop::Stop;
use pf_stream::dialogue::answers::{Going, Stopped};

/// Answers a line of a session as it came: with its line feed, which the last one may lack. Appends the text of the answer. Where
/// memory is refused for that the answer tells it, and nothing has changed.
///
/// # Errors
///
/// Where memory is refused for that answer too: nothing has changed. Where it is refused in mid-change, after the first of several
/// steps, or for the label of an event: the text and who saves are as before.
pub fn answer<S: Saver, V: Shows>(
    session: &mut Session,
    saver: &mut S,
    views: &V,
    line: &[u8],
    text: &mut Vec<u8>,
) -> Result<Going, Stopped>
    ensures ok { IfOk result (λ going. (answer : List ℕ) × AnswersLine V.shows S.saves session.old saver.old line.now going answer session.new saver.new
        × (text.new.items ≡ text.old.items ++ answer)) }
    ensures stopped { OnErr result (IsStopped session.old line.now session.new) }
    ensures saver { OnErr result (saver.new ≡ saver.old) }
    ensures err { OnErr result (text.new.items ≡ text.old.items) }
{
    match turn(session, saver, views, line, text) {
        Ok(going) => Ok(going),
        Err(Stop::NoMemory) => tell_refused(session, text),
        Err(Stop::Lost) => Err(Stopped),
    }
}

/// Tells that memory was refused.
fn tell_refused(session: &Session, text: &mut Vec<u8>) -> Result<Going, Stopped>
    ensures going { IfOk result (λ going. going ≡ On) }
    ensures ok { IfOk result (λ going. text.new.items ≡ text.old.items ++ told_text session.now.manner.json (codes "out of memory")) }
    ensures err { OnErr result (text.new.items ≡ text.old.items) }
{
    match session.tell(b"out of memory", text) {
        Ok(()) => Ok(Going::On),
        Err(_) => Err(Stopped),
    }
}
