ghost use Rattle.std.specs.Prelude.{◌≡◌, ◌<◌, [], length};
ghost use Rattle.std.specs.List.{slice_index_or};
ghost use Rattle.pf_desk.specs.declared.reply.Reply.TheVariants.{Stepped};
ghost use Rattle.pf_desk.specs.Laid.{IsLaid, entry_of_brief};
ghost use Rattle.pf_desk.specs.Runs.{brief_behind};
ghost use Rattle.pf_desk.specs.Views.{lent_reply, lent_entry};

use crate::command::Command;
use crate::entry_view::EntryView;
use crate::reply_view::ReplyView;
use crate::settlements::Settlements;
use pf_place::rows::Rows;

/// What a history keeps of an entry beside the rows and the commands that took no slot.
#[derive(Clone, Copy, Debug, PartialEq, Eq)]
pub(crate) enum Brief {
    /// A step that took a slot.
    OfSlot {
        /// Who asked.
        caller: u32,
        /// The slot, which is the place of its row too.
        slot: u64,
    },
    /// A command that took no slot.
    OfCommand {
        /// Who asked.
        caller: u32,
        /// Its place among these commands.
        index: usize,
    },
}

const _: () = prove!(size_of::<Brief>() == 16);

impl Brief {
    /// The brief of the slot, or the command, so many after this one's.
    pub(crate) fn behind(self, by: u64) -> Self
        ensures { result ≡ brief_behind self by }
    {
        if by == 0 {
            return self;
        }
        match self {
            Brief::OfSlot { caller, slot } => Brief::OfSlot {
                caller,
                slot: slot.wrapping_add(by),
            },
            Brief::OfCommand { caller, index } => Brief::OfCommand {
                caller,
                index: index.wrapping_add(by as usize),
            },
        }
    }

    /// The entry, where these are the commands that took no slot and the rows of the slots that were taken.
    pub(crate) fn entry<'a>(&self, settled: &Settlements, rows: &'a Rows) -> EntryView<'a>
        requires { IsLaid settled.now.items (length rows.now) self.now }
        ensures { lent_entry result ≡ entry_of_brief settled.now.items rows.entry.now self.now }
    {
        match self {
            Brief::OfSlot { caller, slot } => EntryView {
                caller: *caller,
                command: Command::Step,
                reply: stepped(rows, *slot),
            },
            Brief::OfCommand { caller, index } => settled.get(*index).entry(*caller),
        }
    }
}

/// The reply to the step that took the slot.
fn stepped(rows: &Rows, slot: u64) -> ReplyView<'_>
    requires { slot < length rows.now }
    ensures { lent_reply result ≡ Stepped slot (slice_index_or rows.entry.now slot []) }
{
    match rows.get(slot) {
        Some(row) => ReplyView::Stepped { slot, row },
        None => unreachable!(),
    }
}
