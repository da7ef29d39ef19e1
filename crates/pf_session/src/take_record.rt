ghost use Rattle.std.specs.Prelude.{◌≡◌, ◌++◌, None, true, is_some, take, Err, OnErr, OnOk};
ghost use Rattle.pf_answers.specs.Telling.{ready_text, taken_text};
ghost use Rattle.pf_session.specs.Amid.{IsAmid};
ghost use Rattle.pf_session.specs.Answers.{said_answer};
ghost use Rattle.pf_session.specs.Session.{behind_asked, behind_record};
ghost use Rattle.pf_session.specs.declared.stop.Stop.TheVariants as stop;
ghost use Rattle.pf_script.specs.declared.plan.said.Said.TheVariants as says;
ghost use Rattle.pf_script.specs.declared.line.Line.TheVariants as asked;

use crate::edit::change_desk;
use crate::made::{event_before, push_made};
use crate::open::open_desk;
use crate::pair::extend_both;
use crate::session::Session;
use crate::step::step_desk;
use crate::stop::Stop;
use pf_answers::manner::Manner;
use pf_answers::telling::{ready, taken};
use pf_scenario::change::Change;
use pf_script::line::Line;
use pf_script::plan::said::Said;
use pf_script::record::ScriptSettings;
use pf_vocabulary::names::name::Name;
use pf_vocabulary::names::slot_length::SlotLength;
use std::alloc::AllocError;

impl Session {
    /// Takes a record, whose line goes after the script.
    ///
    /// # Errors
    ///
    /// `NoMemory`: nothing has changed. `Lost`: it is in mid-change, after some steps of several, or before the label of an event was
    /// kept. The text is as before at both.
    pub fn take_record(&mut self, said: Said, line: &[u8], text: &mut Vec<u8>) -> Result<(), Stop>
        ensures session { OnOk result (self.new ≡ behind_record self.old said line.now) }
        ensures text { OnOk result (text.new.items ≡ text.old.items ++ said_answer self.old.manner self.old.course said) }
        ensures err { result ≡ Err stop.NoMemory → self.new ≡ self.old }
        ensures lost { result ≡ Err stop.Lost → IsAmid self.old said self.new }
        ensures same { OnErr result (text.new.items ≡ text.old.items) }
    {
        match said {
            Said::Settings(opening) => Ok(self.take_settings(opening, line, text)?),
            Said::Slot(slot) => Ok(self.take_slot(slot, line, text)?),
            Said::Name(task, name) => Ok(self.take_name(task, name, line, text)?),
            Said::Asks(asks, label) => self.take_asks(asks, label, line, text),
        }
    }

    /// Takes the settings.
    fn take_settings(
        &mut self,
        opening: ScriptSettings,
        line: &[u8],
        text: &mut Vec<u8>,
    ) -> Result<(), AllocError>
        ensures session { OnOk result (self.new ≡ behind_record self.old (says.Settings opening) line.now) }
        ensures text { OnOk result (text.new.items ≡ text.old.items ++ ready_text self.old.manner.json) }
        ensures err { OnErr result (self.new ≡ self.old) }
        ensures same { OnErr result (text.new.items ≡ text.old.items) }
    {
        let was = self.script.len();
        let before = text.len();
        extend_both(&mut self.script, line, text, ready(self.manner.json))?;
        let Ok(desk) = open_desk(self.alloc, opening) else {
            self.script.truncate(was);
            text.truncate(before);
            return Err(AllocError);
        };
        self.desk = Some(desk);
        self.progress.opened = true;
        self.is_first = false;
        Ok(())
    }

    /// Takes the length of a slot.
    fn take_slot(
        &mut self,
        slot: SlotLength,
        line: &[u8],
        text: &mut Vec<u8>,
    ) -> Result<(), AllocError>
        ensures session { OnOk result (self.new ≡ behind_record self.old (says.Slot slot) line.now) }
        ensures text { OnOk result (text.new.items ≡ text.old.items ++ taken_text self.old.manner.json) }
        ensures err { OnErr result (self.new ≡ self.old) }
        ensures same { OnErr result (text.new.items ≡ text.old.items) }
    {
        extend_both(&mut self.script, line, text, taken(self.manner.json))?;
        self.progress.slot = Some(slot);
        self.is_first = false;
        Ok(())
    }

    /// Takes the name of a task.
    fn take_name(
        &mut self,
        task: u64,
        name: Name,
        line: &[u8],
        text: &mut Vec<u8>,
    ) -> Result<(), AllocError>
        ensures session { OnOk result (self.new ≡ behind_record self.old (says.Name task name) line.now) }
        ensures text { OnOk result (text.new.items ≡ text.old.items ++ taken_text self.old.manner.json) }
        ensures err { OnErr result (self.new ≡ self.old) }
        ensures same { OnErr result (text.new.items ≡ text.old.items) }
    {
        let was = self.script.len();
        let before = text.len();
        extend_both(&mut self.script, line, text, taken(self.manner.json))?;
        if self.progress.names.give(task, name).is_err() {
            self.script.truncate(was);
            text.truncate(before);
            return Err(AllocError);
        }
        self.is_first = false;
        Ok(())
    }

    /// Takes what a record asks for.
    fn take_asks(
        &mut self,
        asks: Line,
        label: Option<Name>,
        line: &[u8],
        text: &mut Vec<u8>,
    ) -> Result<(), Stop>
        ensures session { OnOk result (self.new ≡ behind_record self.old (says.Asks asks label) line.now) }
        ensures text { OnOk result (text.new.items ≡ text.old.items ++ said_answer self.old.manner self.old.course (says.Asks asks label)) }
        ensures err { result ≡ Err stop.NoMemory → self.new ≡ self.old }
        ensures lost { result ≡ Err stop.Lost → IsAmid self.old (says.Asks asks label) self.new }
        ensures same { OnErr result (text.new.items ≡ text.old.items) }
    {
        match asks {
            Line::Edit { change, strict } => self.take_edit(change, strict, label, line, text),
            Line::Steps(count) => self.take_steps(count, label, line, text),
        }
    }

    /// Carries a change out.
    fn take_edit(
        &mut self,
        change: Change,
        strict: bool,
        label: Option<Name>,
        line: &[u8],
        text: &mut Vec<u8>,
    ) -> Result<(), Stop>
        ensures session { OnOk result (self.new ≡ behind_record self.old (says.Asks (asked.Edit change strict) label) line.now) }
        ensures text { OnOk result (text.new.items ≡ text.old.items ++ said_answer self.old.manner self.old.course (says.Asks (asked.Edit change strict) label)) }
        ensures err { result ≡ Err stop.NoMemory → self.new ≡ self.old }
        ensures lost { result ≡ Err stop.Lost → IsAmid self.old (says.Asks (asked.Edit change strict) label) self.new }
        ensures same { OnErr result (text.new.items ≡ text.old.items) }
    {
        let Some(desk) = &mut self.desk else {
            return self.take_without_desk(label, line);
        };
        let before = event_before(desk.as_desk().scenario(), change);
        let was = text.len();
        self.made.reserve(1)?;
        let names = &self.progress.names;
        let number = change_desk(
            self.alloc,
            self.manner,
            names,
            desk,
            change,
            strict,
            line,
            &mut self.script,
            text,
        )?;
        push_made(&mut self.made, change, before, number);
        if number.is_some() {
            self.undone.clear();
        }
        self.end_asked(label, number.unwrap_or(0), was, text)
    }

    /// Takes steps.
    fn take_steps(
        &mut self,
        count: u64,
        label: Option<Name>,
        line: &[u8],
        text: &mut Vec<u8>,
    ) -> Result<(), Stop>
        ensures session { OnOk result (self.new ≡ behind_record self.old (says.Asks (asked.Steps count) label) line.now) }
        ensures text { OnOk result (text.new.items ≡ text.old.items ++ said_answer self.old.manner self.old.course (says.Asks (asked.Steps count) label)) }
        ensures err { result ≡ Err stop.NoMemory → self.new ≡ self.old }
        ensures lost { result ≡ Err stop.Lost → IsAmid self.old (says.Asks (asked.Steps count) label) self.new }
        ensures same { OnErr result (text.new.items ≡ text.old.items) }
    {
        let Some(desk) = &mut self.desk else {
            return self.take_without_desk(label, line);
        };
        let was = text.len();
        step_desk(
            self.alloc,
            self.manner,
            desk,
            count,
            line,
            &mut self.script,
            text,
        )?;
        self.end_asked(label, 0, was, text)
    }

    /// Takes what a record asks for where there is no desk.
    fn take_without_desk(&mut self, label: Option<Name>, line: &[u8]) -> Result<(), Stop>
        requires desk { self.old.course.desk ≡ None }
        requires held { self.old.held ≡ None }
        ensures session { OnOk result (self.new ≡ behind_asked (record self.old { script = self.old.script ++ line.now }) label 0) }
        ensures err { result ≡ Err stop.NoMemory → self.new ≡ self.old }
        ensures lost { result ≡ Err stop.Lost → (is_some label ≡ true) × (self.new.course.desk ≡ None) }
    {
        self.script.extend_from_slice(line)?;
        self.note_asked(label, 0)
    }

    /// Notes that a record asked for something, and the number of its event, where that has a label.
    ///
    /// # Errors
    ///
    /// `Lost` where memory is refused for the label.
    fn note_asked(&mut self, label: Option<Name>, number: u64) -> Result<(), Stop>
        ensures session { OnOk result (self.new ≡ behind_asked self.old label number) }
        ensures err { ¬ (result ≡ Err stop.NoMemory) }
        ensures lost { OnErr result ((is_some label ≡ true) × (self.new.course.desk ≡ self.old.course.desk)) }
    {
        self.is_first = false;
        self.progress.begun = true;
        if let Some(label) = label {
            if self.progress.labels.give(label, number).is_err() {
                return Err(Stop::Lost);
            }
        }
        Ok(())
    }

    /// Notes that a record asked for something, whose answer stands in the text after so many bytes.
    fn end_asked(
        &mut self,
        label: Option<Name>,
        number: u64,
        was: usize,
        text: &mut Vec<u8>,
    ) -> Result<(), Stop>
        ensures session { OnOk result (self.new ≡ behind_asked self.old label number) }
        ensures text { OnOk result (text.new.items ≡ text.old.items) }
        ensures same { OnErr result (text.new.items ≡ take was text.old.items) }
        ensures err { ¬ (result ≡ Err stop.NoMemory) }
        ensures lost { OnErr result ((is_some label ≡ true) × (self.new.course.desk ≡ self.old.course.desk)) }
    {
        let noted = self.note_asked(label, number);
        if noted.is_err() {
            text.truncate(was);
        }
        noted
    }

    /// Takes a record as `take_record` does, without an answer.
    ///
    /// # Errors
    ///
    /// `NoMemory`: nothing has changed. `Lost`: it is in mid-change.
    pub fn carry_out(&mut self, said: Said, line: &[u8]) -> Result<(), Stop>
        ensures session { OnOk result (self.new ≡ behind_record self.old said line.now) }
        ensures err { result ≡ Err stop.NoMemory → self.new ≡ self.old }
        ensures lost { result ≡ Err stop.Lost → IsAmid self.old said self.new }
    {
        let mut text = Vec::new(self.alloc);
        let manner = self.manner;
        self.manner = Manner {
            json: false,
            quiet: true,
            whole: manner.whole,
        };
        let result = self.take_record(said, line, &mut text);
        self.manner = manner;
        result
    }
}
