//! The windows of a run's tasks as a table. The one contract of this crate: from a snapshot `window_pieces` gives the bytes of
//! the table.
#![tactic(auto)]

pub mod line;
pub mod slots;
pub mod task_windows;
pub mod window_sheet;
pub mod windows;
