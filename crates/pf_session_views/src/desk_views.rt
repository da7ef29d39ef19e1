ghost use Rattle.std.specs.Prelude.{◌≡◌, IfOk};
ghost use Rattle.std.specs.Option.{option_map};
ghost use Rattle.pf_replies.specs.Course.{course_at};
ghost use Rattle.pf_session_views.specs.Held.{HeldShows, SessionShows};

use crate::desk_shown::desk_shown;
use crate::show::script_shown;
use pf_desk::desk::Desk;
use pf_session::session::Session;
use pf_session::shows::Shows;
use pf_session_lines::showing::Showing;
use pf_session_lines::wanted::Wanted;
use pf_vocabulary::names::titles::Titles;
use std::alloc::{AllocError, Global};

/// What a session's own desk shows, and its script where records before the end are told of.
#[derive(Clone, Copy, Debug)]
pub struct DeskViews;

impl Shows for DeskViews {
    ghost use Rattle.pf_session_views.specs.Held.{SessionShows};

    ghost shows = { SessionShows };

    fn show(&self, session: &mut Session, wanted: &Wanted) -> Result<Showing, AllocError> {
        show(session, wanted)
    }
}

/// What a session shows of what is wanted. The session stays as it is.
fn show(session: &mut Session, wanted: &Wanted) -> Result<Showing, AllocError>
    ensures shown { IfOk result (SessionShows wanted.now session.old) }
    ensures same { session.new ≡ session.old }
{
    let titles = session.lend_titles();
    let shown = held_shown(
        session.alloc(),
        session.desk(),
        &titles,
        session.script(),
        wanted,
    );
    session.take_titles(titles);
    shown
}

/// What is shown of what is wanted, where the session's desk is this one, after the settings.
fn held_shown(
    alloc: Global,
    desk: Option<&Desk>,
    titles: &Titles,
    script: &[u8],
    wanted: &Wanted,
) -> Result<Showing, AllocError>
    ensures { IfOk result (HeldShows (option_map (λ d. course_at d.now) desk.entry) titles.now wanted.now script.now) }
{
    match desk {
        Some(desk) => desk_shown(alloc, desk, titles, script, wanted),
        None => script_shown(alloc, script, 0, wanted),
    }
}
