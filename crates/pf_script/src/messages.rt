//! What is told of a bad record: where it is, what is wrong with it, and what would be right. The one contract of this folder: each call
//! gives its text.

pub mod field_text;
pub mod form;
pub mod hint;
pub mod kind;
pub mod near;
pub mod plan_hint;
pub mod plan_what;
pub mod telling;
pub mod trimming;
pub mod what;
pub mod words;
