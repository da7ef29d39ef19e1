//! The script of version 2 that belongs to a plan. The one contract of this crate: its text is that of the
//! script's records, with tasks by number, and labels by the numbers that a desk gave to the events they stand before.
#![tactic(auto)]

mod carried;
pub mod origin;
pub mod plain;
mod writer;
mod writing;
