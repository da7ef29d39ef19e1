use crate::command::Command;
use crate::reply_view::ReplyView;

/// An entry of a history that is lent. A copy of the view copies no row.
#[derive(Clone, Copy, Debug)]
pub struct EntryView<'a> {
    /// Who asked.
    pub caller: u32,
    /// What was asked.
    pub command: Command,
    /// What was answered.
    pub reply: ReplyView<'a>,
}
