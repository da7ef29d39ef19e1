ghost use Rattle.std.specs.Prelude.{◌≡◌};
ghost use Rattle.pf_desk.specs.Recorded.{slots_of};
ghost use Rattle.pf_desk.specs.Laid.{reply_of_answer, answer_of, settled_of, entry_of_settled};
ghost use Rattle.pf_desk.specs.Views.{lent_reply, lent_entry};

use crate::command::Command;
use crate::entry::Entry;
use crate::entry_view::EntryView;
use crate::reply::{Fault, Reply};
use crate::reply_view::ReplyView;

/// What a command was answered that took no slot.
#[derive(Clone, Copy, Debug)]
pub(crate) enum Answer {
    /// The change was made.
    Edited {
        /// The number of the event concerned.
        id: u64,
    },
    /// Nothing changed but the history.
    Refused(Fault),
}

impl Answer {
    /// The answer that stands for the reply, which must have taken no slot.
    pub(crate) fn of(reply: &Reply) -> Self
        requires { slots_of reply.now ≡ 0 }
        ensures { result ≡ answer_of reply.now }
    {
        match reply {
            Reply::Edited { id } => Answer::Edited { id: *id },
            Reply::Refused(fault) => Answer::Refused(*fault),
            Reply::Stepped { .. } => unreachable!(),
        }
    }

    /// The reply.
    fn reply(self) -> ReplyView<'static>
        ensures { lent_reply result ≡ reply_of_answer self }
    {
        match self {
            Answer::Edited { id } => ReplyView::Edited { id },
            Answer::Refused(fault) => ReplyView::Refused(fault),
        }
    }
}

/// A command that took no slot, and its answer.
#[derive(Clone, Copy, Debug)]
pub(crate) struct Settled {
    /// What was asked.
    pub(crate) command: Command,
    /// What was answered.
    pub(crate) answer: Answer,
}

impl Settled {
    /// What is kept of the entry, which must have taken no slot.
    pub(crate) fn of(entry: &Entry) -> Self
        requires { slots_of entry.now.reply ≡ 0 }
        ensures { result ≡ settled_of entry.now }
    {
        Settled {
            command: entry.command,
            answer: Answer::of(&entry.reply),
        }
    }

    /// The entry, by who asked.
    pub(crate) fn entry(self, caller: u32) -> EntryView<'static>
        ensures { lent_entry result ≡ entry_of_settled caller self }
    {
        EntryView {
            caller,
            command: self.command,
            reply: self.answer.reply(),
        }
    }
}
