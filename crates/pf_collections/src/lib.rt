//! Collections, each a folder: lists whose copies share their items, and tables by number. The one contract of this crate: each is as
//! the list or the function of numbers that its model is, and a copy is as it was whatever becomes of the other.
#![tactic(auto)]

pub mod list;
pub mod table;
