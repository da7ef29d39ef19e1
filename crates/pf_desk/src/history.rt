ghost use Rattle.std.specs.Prelude.{◌≡◌, ◌==◌, ◌<◌, ◌≤◌, ◌+◌, ◌-◌, ◌^◌, ◌++◌, [], length, map, All, OnOk, OnErr};
ghost use Rattle.std.specs.List.{slice_get};
ghost use Rattle.pf_place.specs.Lent.{places_lent, lent_row};
ghost use Rattle.pf_desk.specs.declared.command.Command.TheVariants.{Step};
ghost use Rattle.pf_desk.specs.declared.reply.Reply.TheVariants.{Stepped};
ghost use Rattle.pf_desk.specs.Machine.{reply_by_row};
ghost use Rattle.pf_desk.specs.Desk.{entry_of};
ghost use Rattle.pf_desk.specs.Recorded.{slots_of, slots_taken, CanFollow, entered_in, Gains, HasNoLessRoom};
ghost use Rattle.pf_desk.specs.Settled.{HasRoomFor};
ghost use Rattle.pf_desk.specs.Laid.{reply_of_answer, settled_of, briefs_from, AreKept, IsRowLaid};
ghost use Rattle.pf_desk.specs.Views.{entry_lent};

use crate::brief::Brief;
use crate::briefs::Briefs;
use crate::command::Command;
use crate::entry::Entry;
use crate::entry_view::EntryView;
use crate::reply::{Fault, Reply};
use crate::settled::{Answer, Settled};
use crate::settlements::Settlements;
use pf_place::row_view::RowView;
use pf_place::rows::Rows;
use std::alloc::{AllocError, Global};
use std::marker::Model;

/// The commands that a desk was given, in the order of the answers, each with who asked and what was answered. Beside the
/// rows of the steps and the commands that took no slot it takes 24 bytes for each run of either by one caller.
#[derive(Debug)]
pub struct History {
    alloc: Global,
    processors: u32,
    briefs: Briefs,
    settled: Settlements,

    /// The row of each slot that was taken, and after them at most the one that is laid for the next step.
    rows: Rows,
    slots: u64,
    has_room: bool,
}

// A call of its own, so that who drops a history sees none of its parts.
impl Drop for History {
    fn drop(self) {
        let History {
            alloc: _,
            processors: _,
            briefs: _,
            settled: _,
            rows: _,
            slots: _,
            has_room: _,
        } = self;
    }
}

impl Model for History {
    ghost use Rattle.std.specs.Prelude.{min};
    ghost use Rattle.pf_desk.specs.Recorded.{Recorded};

    ghost Value = { Recorded };

    ghost use Rattle.pf_desk.specs.Settled.{HasRoomFor};
    ghost use Rattle.pf_desk.specs.Laid.{AreLaid, recorded_by};

    ghost view = { λ h. recorded_by h.processors h.has_room h.briefs.items h.settled.items h.rows };

    ghost invariant = { λ h. AreLaid h.processors h.slots h.has_room h.briefs.items h.settled.items h.rows h.briefs.room (min h.settled.room h.settled.wide_room) };
}

impl History {
    /// No entries, of a desk with so many processors.
    pub(crate) fn new(alloc: Global, processors: u32) -> Self
        ensures { result ≡ record { entries = []; processors = processors; spare = 0 } }
    {
        History {
            alloc,
            processors,
            briefs: Briefs::new(alloc),
            settled: Settlements::new(alloc),
            rows: Rows::new(alloc),
            slots: 0,
            has_room: false,
        }
    }

    /// Where it takes its memory.
    pub(crate) fn alloc(&self) -> Global {
        self.alloc
    }

    /// How many entries there are.
    pub fn len(&self) -> usize
        ensures value { result ≡ length self.now.entries }
        ensures small { result < 2 ^ 63 }
    {
        self.briefs.len()
    }

    /// Whether there is none.
    pub fn is_empty(&self) -> bool
        ensures { result ≡ (length self.now.entries == 0) }
    {
        self.briefs.len() == 0
    }

    /// The k-th entry, counted from 0, where there is one.
    pub fn entry(&self, k: usize) -> Option<EntryView<'_>>
        ensures { entry_lent result ≡ slice_get self.now.entries k }
    {
        let brief = self.briefs.get(k)?;
        Some(brief.entry(&self.settled, &self.rows))
    }

    /// The last entry, where there is one.
    pub fn last(&self) -> Option<EntryView<'_>>
        ensures { entry_lent result ≡ slice_get self.now.entries (length self.now.entries - 1) }
    {
        let last = self.briefs.len().checked_sub(1)?;
        self.entry(last)
    }

    /// Makes room for an entry, so that entering it can't fail. Memory has the rows once that the schedule has too, by full
    /// blocks.
    ///
    /// # Errors
    ///
    /// Where memory is refused.
    pub(crate) fn reserve(&mut self, schedule: &Rows) -> Result<(), AllocError>
        ensures ok { OnOk result (1 ≤ self.new.spare) }
        ensures same { HasNoLessRoom self.old self.new }
    {
        self.briefs.reserve(1)?;
        self.settled.reserve()?;
        lay_row(&mut self.rows, self.slots, self.processors, schedule)?;
        self.has_room = true;
        Ok(())
    }

    /// Enters what a caller asked and was answered; it takes no memory.
    ///
    /// There must be room. A command that took a slot must be a step, its slot the one after those taken before, and its
    /// row one of all processors.
    pub(crate) fn enter(&mut self, caller: u32, command: Command, reply: &Reply)
        requires room { 1 ≤ self.old.spare }
        requires next { CanFollow self.old command reply.now }
        ensures { self.new ≡ entered_in self.old (entry_of caller command reply.now) }
    {
        match reply {
            Reply::Stepped { slot, row } => self.enter_slot(caller, *slot, row.view()),
            _ => self.enter_settled(caller, command, Answer::of(reply)),
        }
    }

    /// Enters a caller's step by the row of the slot that it took, where it took one, as `enter` does.
    pub(crate) fn enter_step(&mut self, caller: u32, slot: u64, row: Option<RowView<'_>>)
        requires room { 1 ≤ self.old.spare }
        requires next { CanFollow self.old Step (reply_by_row slot (places_lent row)) }
        ensures { self.new ≡ entered_in self.old (entry_of caller Step (reply_by_row slot (places_lent row.entry))) }
    {
        match row {
            Some(row) => self.enter_slot(caller, slot, row),
            None => self.enter_settled(caller, Command::Step, Answer::Refused(Fault::AtHorizon)),
        }
    }

    /// Enters entries that took no slot.
    ///
    /// # Errors
    ///
    /// Where memory is refused: none was entered.
    pub(crate) fn enter_all(&mut self, entries: &[Entry]) -> Result<(), AllocError>
        requires { All (λ e. slots_of e.reply ≡ 0) entries.now }
        ensures ok { OnOk result (Gains self.old entries.now self.new) }
        ensures err { OnErr result (HasNoLessRoom self.old self.new) }
    {
        self.briefs.reserve(entries.len())?;
        self.settled.reserve_for(entries)?;
        settle(&mut self.briefs, &mut self.settled, entries);
        self.has_room = false;
        Ok(())
    }

    /// Enters a step that took a slot, whose row takes the place that is laid for it.
    fn enter_slot(&mut self, caller: u32, slot: u64, row: RowView<'_>)
        requires room { 1 ≤ self.old.spare }
        requires next { slot ≡ slots_taken self.old.entries }
        requires long { length (lent_row row) ≡ self.old.processors }
        ensures { self.new ≡ entered_in self.old (entry_of caller Step (Stepped slot (lent_row row.entry))) }
    {
        self.rows.assign_last(row);
        self.briefs.push_reserved(Brief::OfSlot { caller, slot });
        self.slots = self.rows.len() as u64;
        self.has_room = false;
    }

    /// Enters a command that took no slot.
    fn enter_settled(&mut self, caller: u32, command: Command, answer: Answer)
        requires { 1 ≤ self.old.spare }
        ensures { self.new ≡ entered_in self.old (entry_of caller command (reply_of_answer answer)) }
    {
        let index = self.settled.len();
        self.settled.push_reserved(Settled { command, answer });
        self.briefs
            .push_reserved(Brief::OfCommand { caller, index });
        self.has_room = false;
    }
}

/// Lays a row for the next step after those of the slots that were taken, unless one lies there.
///
/// # Errors
///
/// Where memory is refused: the rows are as before.
fn lay_row(rows: &mut Rows, slots: u64, processors: u32, schedule: &Rows) -> Result<(), AllocError>
    requires { AreKept processors slots rows.old }
    ensures ok { OnOk result (IsRowLaid processors slots rows.old rows.new) }
    ensures err { OnErr result (rows.new ≡ rows.old) }
{
    if rows.len() as u64 == slots {
        rows.push_idle_beside(processors, schedule)?;
    }
    Ok(())
}

/// Appends what is kept of entries that took no slot; it takes no memory, since there must be room.
fn settle(briefs: &mut Briefs, settled: &mut Settlements, entries: &[Entry])
    requires took_none { All (λ e. slots_of e.reply ≡ 0) entries.now }
    requires for_briefs { length entries.now ≤ briefs.old.room }
    requires for_commands { HasRoomFor settled.old (map settled_of entries.now) }
    ensures briefs { briefs.new.items ≡ briefs.old.items ++ briefs_from (length settled.old.items) entries.now }
    ensures commands { settled.new.items ≡ settled.old.items ++ map settled_of entries.now }
{
    for entry in entries {
        briefs.push_reserved(Brief::OfCommand {
            caller: entry.caller,
            index: settled.len(),
        });
        settled.push_reserved(Settled::of(entry));
    }
}
