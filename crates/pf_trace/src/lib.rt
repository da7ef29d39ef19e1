//! A run as trace events, which trace viewers open. The one contract of this crate: from a snapshot and the titles of a script
//! `trace_pieces` gives the text of the events, in pieces.
#![tactic(auto)]

pub mod book;
pub mod course;
pub mod event_lines;
pub mod form;
pub mod head;
pub mod lag_line;
pub mod laws;
pub mod moment;
pub mod run_book;
pub mod run_ledger;
pub mod slot_lines;
pub mod task_trace;
pub mod time;
pub mod title;
pub mod trace;
pub mod track_names;
pub mod window_lines;
