//! The file of a journal, as the program has it: where it is had from, and what is told of it. The one contract of this crate: a
//! file that was opened can be used, and what is told of one, or of why it is no journal for a session, is the text of that.
#![tactic(auto)]

pub mod host_journals;
pub mod journal_fault;
pub mod journals;
pub mod sizes;
pub mod watch;
