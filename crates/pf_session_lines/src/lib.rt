//! What the lines of a session are. The one contract of this crate: a line is heard as the definitions read its fields after the
//! lines before it: a record, a word that asks for something, nothing, or a bad line with its text.
#![tactic(auto)]

mod ask;
pub mod asked;
pub mod bytes;
pub mod fault;
pub mod hear;
pub mod heard;
pub mod reason;
pub mod reversal;
pub mod row_text;
pub mod showing;
pub mod wanted;
pub mod word;
