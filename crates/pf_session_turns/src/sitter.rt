use crate::answer::answer;
use crate::saver::Saver;
use pf_session::session::Session;
use pf_session::shows::Shows;
use pf_stream::dialogue::answers::{Answers, Going, Stopped, Unkept};
use pf_stream::dialogue::scripted::Scripted;
use std::marker::Model;

/// A session that answers lines, who writes files for it, and who shows what is wanted of its script. Contracts see the session.
#[derive(Drop)]
pub struct Sitter<S, V> {
    session: Session,
    saver: S,
    views: V,
}

impl<S, V> Model for Sitter<S, V> {
    ghost use Rattle.pf_session.specs.Session.{SessionState};

    ghost Value = { SessionState };

    ghost view = { λ s. s.session };
}

impl<S: Saver, V: Shows> Sitter<S, V> {
    ghost use Rattle.std.specs.Prelude.{◌≡◌};

    /// A session, who writes its files, and who shows its script.
    pub fn new(session: Session, saver: S, views: V) -> Self
        ensures { result ≡ session }
    {
        Sitter {
            session,
            saver,
            views,
        }
    }

    /// Whether a line was bad.
    pub fn has_bad(&self) -> bool
        ensures { result ≡ self.now.has_bad }
    {
        self.session.has_bad()
    }
}

impl<S: Saver, V: Shows> Answers for Sitter<S, V> {
    ghost use Rattle.pf_session_turns.specs.Sitters.{answers, keeps, loses, stops};

    ghost answers = { answers V.shows };

    ghost stops = { stops };

    ghost keeps = { keeps };

    ghost loses = { loses };

    fn take(&mut self, line: &[u8], text: &mut Vec<u8>) -> Result<Going, Stopped> {
        answer(&mut self.session, &mut self.saver, &self.views, line, text)
    }

    fn keep(&mut self) -> Result<(), Unkept> {
        Ok(())
    }
}

impl<S: Saver, V: Shows> Scripted for Sitter<S, V> {
    ghost use Rattle.pf_session_turns.specs.Grows.{grows};

    ghost script = { λ s. s.script };

    fn script(&self) -> &[u8] {
        self.session.script()
    }

    ghost grows = { grows V.shows };
}
