ghost use Rattle.std.specs.Prelude.{◌≡◌, ◌+◌, ◌≤◌, ◌++◌, option_map, Some, OnErr, OnOk};
ghost use Rattle.std.specs.Vec.{vec_capacity, vec_len};
ghost use Rattle.pf_script.specs.Plan.Labels.{with_label};
ghost use Rattle.pf_session.specs.Answers.{reversal_answer, undo_answer};
ghost use Rattle.pf_session.specs.Made.{label_back, left_behind, event_before, made_of};
ghost use Rattle.pf_session.specs.Session.{behind_reversal, behind_undo, exchanged};

use crate::edit::change_desk;
use crate::made::{Made, event_before, push_back, reverse, take_back};
use crate::session::Session;
use pf_script::plan::labels::Labels;
use pf_session_lines::reversal::Reversal;
use pf_vocabulary::names::name::Name;
use std::alloc::AllocError;
use std::mem;

/// The label by which the event of a change went that is taken back, and goes again.
fn label_back(labels: &Labels, newest: Made) -> Option<&Name>
    ensures { option_map (λ label. label.now) result ≡ label_back labels.now newest }
{
    match newest {
        Made::Struck(id, _) => labels.of_number(id),
        Made::Inserted(_) | Made::Altered(_, _) => None,
    }
}

/// That label goes on to the event of this number, but where that is 0.
fn pass_label(labels: &mut Labels, newest: Made, number: u64)
    ensures { labels.new ≡ with_label (label_back labels.old newest) number labels.old }
{
    if let Made::Struck(id, _) = newest {
        labels.pass_on(id, number);
    }
}

impl Session {
    /// Takes back the last change that may be taken back so, where there is one.
    ///
    /// # Errors
    ///
    /// Where memory is refused: nothing has changed.
    pub fn take_reversal(
        &mut self,
        reversal: Reversal,
        text: &mut Vec<u8>,
    ) -> Result<(), AllocError>
        ensures session { OnOk result (self.new ≡ behind_reversal reversal self.old) }
        ensures text { OnOk result (text.new.items ≡ text.old.items ++ reversal_answer reversal self.old) }
        ensures err { OnErr result (self.new ≡ self.old) }
        ensures same { OnErr result (text.new.items ≡ text.old.items) }
    {
        match reversal {
            Reversal::Undo => self.take_undo(b"nothing to undo", text),
            Reversal::Redo => {
                self.exchange();
                let taken = self.take_undo(b"nothing to redo", text);
                self.exchange();
                taken
            }
        }
    }

    /// Exchanges what can be taken back the one way and the other.
    fn exchange(&mut self)
        ensures { self.new ≡ exchanged self.old }
    {
        mem::swap(&mut self.made, &mut self.undone);
    }

    /// Takes back the last change that was made and is not taken back yet; where there is none, tells these words.
    fn take_undo(&mut self, nothing: &[u8], text: &mut Vec<u8>) -> Result<(), AllocError>
        ensures session { OnOk result (self.new ≡ behind_undo self.old) }
        ensures text { OnOk result (text.new.items ≡ text.old.items ++ undo_answer nothing.now self.old) }
        ensures err { OnErr result (self.new ≡ self.old) }
        ensures same { OnErr result (text.new.items ≡ text.old.items) }
    {
        let Some(desk) = &mut self.desk else {
            return self.tell(nothing, text);
        };
        let Some(newest) = self.made.last().copied() else {
            return self.tell(nothing, text);
        };
        let change = newest.taking_back();
        let before = event_before(desk.as_desk().scenario(), change);
        let mut line = Vec::new(self.alloc);
        push_back(&mut line, label_back(&self.progress.labels, newest), change)?;
        self.undone.reserve(1)?;
        let names = &self.progress.names;
        let number = change_desk(
            self.alloc,
            self.manner,
            names,
            desk,
            change,
            false,
            &line,
            &mut self.script,
            text,
        )?;
        pass_label(&mut self.progress.labels, newest, number.unwrap_or(0));
        if let Some(number) = number {
            take_back(&mut self.made, newest, number);
            reverse(&mut self.undone, newest, before, number);
        }
        self.progress.begun = true;
        Ok(())
    }
}
