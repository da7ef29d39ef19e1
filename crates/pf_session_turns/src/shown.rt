ghost use Rattle.std.specs.Prelude.{◌≡◌, ◌++◌, OnErr, OnOk};
ghost use Rattle.pf_session_lines.specs.declared.showing.Showing.{Showing};
ghost use Rattle.pf_session_turns.specs.Turns.{behind_showing, showing_answer};

use pf_session::session::Session;
use pf_session::shows::Shows;
use pf_session_lines::showing::Showing;
use pf_session_lines::wanted::Wanted;
use std::alloc::AllocError;

/// Tells what the script shows of what is wanted, or that it can't be shown.
///
/// # Errors
///
/// Where memory is refused: nothing has changed.
pub(crate) fn tell_wanted<V: Shows>(
    session: &mut Session,
    views: &V,
    wanted: &Wanted,
    text: &mut Vec<u8>,
) -> Result<(), AllocError>
    ensures ok { OnOk result ((made : Showing) × V.shows wanted.now session.old made × (session.new ≡ behind_showing session.old made)
        × (text.new.items ≡ text.old.items ++ showing_answer session.old.manner wanted.now made)) }
    ensures err { OnErr result (session.new ≡ session.old) }
    ensures same { OnErr result (text.new.items ≡ text.old.items) }
{
    match views.show(session, wanted)? {
        Showing::Text(shown) => session.tell_shown(wanted.is_value(), &shown, text),
        Showing::Bad(words) => session.take_bad(0, &words, b"", text),
    }
}
