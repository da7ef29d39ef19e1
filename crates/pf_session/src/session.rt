ghost use Rattle.std.specs.Prelude.{◌≡◌};

use crate::made::Made;
use crate::session_desk::SessionDesk;
use pf_answers::bad::push_bad;
use pf_answers::manner::Manner;
use pf_answers::shown::push_shown;
use pf_answers::telling::{push_told, taken};
use pf_desk::desk::Desk;
use pf_script::plan::state::Progress;
use pf_vocabulary::names::names::Names;
use pf_vocabulary::names::titles::Titles;
use std::alloc::{AllocError, Global};
use std::marker::Model;
use std::mem;

/// A session at a desk.
#[derive(Drop)]
pub struct Session {
    pub(crate) alloc: Global,
    pub(crate) manner: Manner,
    /// Whether no record was good so far.
    pub(crate) is_first: bool,
    pub(crate) progress: Progress,
    /// The desk, after the settings.
    pub(crate) desk: Option<SessionDesk>,
    /// The heading, and the records that were good so far.
    pub(crate) script: Vec<u8>,
    /// The changes that were made and are not taken back, the last one last.
    pub(crate) made: Vec<Made>,
    /// The changes that an undo made and no redo took back, the last one last.
    pub(crate) undone: Vec<Made>,
    /// Whether a line was bad.
    pub(crate) has_bad: bool,
}

impl Model for Session {
    ghost use Rattle.std.specs.Option.{option_map};
    ghost use Rattle.pf_replies.specs.Course.{course_at};
    ghost use Rattle.pf_session.specs.Session.{SessionState};

    ghost Value = { SessionState };

    ghost view = { λ s. record {
      manner = s.manner;
      is_first = s.is_first;
      course = record { progress = s.progress; desk = option_map (λ d. d.state) s.desk };
      held = option_map course_at s.desk;
      script = s.script.items;
      made = s.made.items;
      undone = s.undone.items;
      has_bad = s.has_bad;
    } };
}

impl Session {
    ghost use Rattle.std.specs.Prelude.{◌≡◌, ◌++◌, [], false, IfOk, OnErr, OnOk};
    ghost use Rattle.std.specs.Option.{option_map};
    ghost use Rattle.pf_answers.specs.Bad.{bad_text};
    ghost use Rattle.pf_answers.specs.Shown.{shown_text};
    ghost use Rattle.pf_answers.specs.Telling.{taken_text, told_text};
    ghost use Rattle.pf_replies.specs.Course.{course_at};
    ghost use Rattle.pf_plain_script.specs.Plain.{titles_of};
    ghost use Rattle.pf_session.specs.Session.{at_start, behind_bad, with_names};

    /// A session without a line so far.
    ///
    /// # Errors
    ///
    /// Where memory is refused.
    pub fn new(alloc: Global, manner: Manner) -> Result<Self, AllocError>
        ensures { IfOk result (λ s. s ≡ at_start manner) }
    {
        Ok(Session {
            alloc,
            manner,
            is_first: true,
            progress: Progress::new(alloc),
            desk: None,
            script: Vec::from_slice(alloc, b"plan,1\n")?,
            made: Vec::new(alloc),
            undone: Vec::new(alloc),
            has_bad: false,
        })
    }

    /// Where it takes memory.
    pub fn alloc(&self) -> Global {
        self.alloc
    }

    /// Has nothing to take back and nothing to make again any more.
    pub fn forget_made(&mut self)
        ensures { self.new ≡ record self.old { made = []; undone = [] } }
    {
        self.made.clear();
        self.undone.clear();
    }

    /// How it answers.
    pub fn manner(&self) -> Manner
        ensures { result ≡ self.now.manner }
    {
        self.manner
    }

    /// Whether no record was good so far, so that the heading may come.
    pub fn is_first(&self) -> bool
        ensures { result ≡ self.now.is_first }
    {
        self.is_first
    }

    /// What came before the next record.
    pub fn progress(&self) -> &Progress
        ensures { result.now ≡ self.now.course.progress }
    {
        &self.progress
    }

    /// Its desk, after the settings.
    pub fn desk(&self) -> Option<&Desk>
        ensures state { option_map (λ d. d.now.state) result ≡ self.now.course.desk }
        ensures course { option_map (λ d. course_at d.now) result ≡ self.now.held }
    {
        match &self.desk {
            Some(desk) => Some(desk.as_desk()),
            None => None,
        }
    }

    /// Lends what the script tells of its tasks and slots, until it is handed back.
    pub fn lend_titles(&mut self) -> Titles
        ensures titles { result ≡ titles_of self.old.course.progress }
        ensures session { self.new ≡ with_names self.old [] }
    {
        Titles {
            is_plan: true,
            names: mem::replace(&mut self.progress.names, Names::new(self.alloc)),
            slot: self.progress.slot,
        }
    }

    /// Takes titles back that were lent.
    pub fn take_titles(&mut self, titles: Titles)
        ensures { self.new ≡ with_names self.old titles.names }
    {
        self.progress.names = titles.names;
    }

    /// The script of the records that were good so far, after its heading.
    pub fn script(&self) -> &[u8]
        ensures { result.now ≡ self.now.script }
    {
        &self.script
    }

    /// Whether a line was bad.
    pub fn has_bad(&self) -> bool
        ensures { result ≡ self.now.has_bad }
    {
        self.has_bad
    }

    /// Takes the heading.
    ///
    /// # Errors
    ///
    /// Where memory is refused: nothing has changed.
    pub fn take_heading(&mut self, text: &mut Vec<u8>) -> Result<(), AllocError>
        ensures session { OnOk result (self.new ≡ record self.old { is_first = false }) }
        ensures text { OnOk result (text.new.items ≡ text.old.items ++ taken_text self.old.manner.json) }
        ensures err { OnErr result (self.new ≡ self.old) }
        ensures same { OnErr result (text.new.items ≡ text.old.items) }
    {
        text.extend_from_slice(taken(self.manner.json))?;
        self.is_first = false;
        Ok(())
    }

    /// Answers a bad line: the field at fault, 0 where there is none, why, and what would be right, nothing where nothing can be
    /// said.
    ///
    /// # Errors
    ///
    /// Where memory is refused: nothing has changed.
    pub fn take_bad(
        &mut self,
        field: u64,
        words: &[u8],
        hint: &[u8],
        text: &mut Vec<u8>,
    ) -> Result<(), AllocError>
        ensures session { OnOk result (self.new ≡ behind_bad self.old) }
        ensures text { OnOk result (text.new.items ≡ text.old.items ++ bad_text self.old.manner field words.now hint.now) }
        ensures err { OnErr result (self.new ≡ self.old) }
        ensures same { OnErr result (text.new.items ≡ text.old.items) }
    {
        let mut answer = Vec::new(self.alloc);
        push_bad(&mut answer, self.manner, field, words, hint)?;
        text.extend_from_slice(&answer)?;
        self.has_bad = true;
        Ok(())
    }

    /// Tells these words.
    ///
    /// # Errors
    ///
    /// Where memory is refused: the text is as before.
    pub fn tell(&self, words: &[u8], text: &mut Vec<u8>) -> Result<(), AllocError>
        ensures text { OnOk result (text.new.items ≡ text.old.items ++ told_text self.now.manner.json words.now) }
        ensures same { OnErr result (text.new.items ≡ text.old.items) }
    {
        let mut answer = Vec::new(self.alloc);
        push_told(&mut answer, self.manner.json, words)?;
        text.extend_from_slice(&answer)
    }

    /// Tells a text that is shown. `is_value`: it is JSON itself.
    ///
    /// # Errors
    ///
    /// Where memory is refused: the text is as before.
    pub fn tell_shown(
        &self,
        is_value: bool,
        shown: &[u8],
        text: &mut Vec<u8>,
    ) -> Result<(), AllocError>
        ensures text { OnOk result (text.new.items ≡ text.old.items ++ shown_text self.now.manner.json is_value shown.now) }
        ensures same { OnErr result (text.new.items ≡ text.old.items) }
    {
        let mut answer = Vec::new(self.alloc);
        push_shown(&mut answer, self.manner.json, is_value, shown)?;
        text.extend_from_slice(&answer)
    }
}
