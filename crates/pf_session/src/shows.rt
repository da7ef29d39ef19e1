ghost use Rattle.std.specs.Prelude.{◌≡◌, IfOk};
ghost use Rattle.pf_session.specs.Showings.{Showings};

use crate::session::Session;
use pf_session_lines::showing::Showing;
use pf_session_lines::wanted::Wanted;
use std::alloc::AllocError;

/// Who shows what is wanted of a session.
pub trait Shows {
    // what it shows of a session
    ghost shows: { Showings };

    /// What a session shows of what is wanted. The session stays as it is.
    ///
    /// # Errors
    ///
    /// Where memory is refused.
    fn show(&self, session: &mut Session, wanted: &Wanted) -> Result<Showing, AllocError>
        ensures shown { IfOk result (shows wanted.now session.old) }
        ensures same { session.new ≡ session.old };
}
