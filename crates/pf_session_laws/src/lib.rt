//! A session that begins again on what an earlier one left. The one contract of this crate: the script of a session, and a journal that
//! has its records, begin the same session again; and whatever a sitting that is kept in a file comes to, a crash leaves such a journal
//! of all that was told.
#![tactic(auto)]

pub mod laws;
