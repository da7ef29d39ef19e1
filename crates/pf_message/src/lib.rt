//! The form of a message: where in a file it is of, what would be right, and which of some names a word is near to. The one contract of
//! this crate: each call gives its text, its position or its name.
#![tactic(auto)]

mod cursor;
mod field_part;
pub mod form;
pub mod nearness;
pub mod position;
pub mod positions;
pub mod shell;
