//! What differs between two snapshots of a desk, as tables. The one contract of this crate: from two snapshots each call
//! gives the bytes of the text.
#![tactic(auto)]

pub mod cell;
mod cells;
mod cells_changed;
pub mod change;
pub mod change_rows;
pub mod changes;
pub mod diff;
pub mod differing;
pub mod finding;
pub mod laws;
pub mod slots;
pub mod summary;
pub mod summary_text;
