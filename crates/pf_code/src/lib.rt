//! A schedule as code that a compiler takes. The one contract of this crate: from a snapshot `c_pieces` gives the text of a C
//! header with the table of a range of its slots, in pieces.
#![tactic(auto)]

pub mod array;
mod header;
pub mod laws;
pub mod outline;
pub mod parts;
pub mod repetition;
pub mod rows;
mod span;
pub mod symbol;
mod task_lines;
mod tasks;
