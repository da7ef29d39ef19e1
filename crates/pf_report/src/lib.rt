//! What people and programs read of a desk: tables as CSV and one JSON object. The one contract of this crate: from a
//! snapshot each call gives the bytes of the report text.
#![tactic(auto)]

pub mod denials;
pub mod elements;
pub mod events;
pub mod json;
pub mod lags;
pub mod laws;
pub mod misses;
mod names;
pub mod quanta;
pub mod reply;
pub mod schedule;
pub mod schedule_part;
pub mod script;
mod tail_text;
