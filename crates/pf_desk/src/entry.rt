use crate::command::Command;
use crate::reply::Reply;

/// A command that was answered.
#[derive(Debug, Drop)]
pub struct Entry {
    /// Who asked.
    pub caller: u32,
    /// What was asked.
    pub command: Command,
    /// What was answered.
    pub reply: Reply,
}
