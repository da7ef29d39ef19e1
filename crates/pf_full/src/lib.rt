//! All that a run tells as one JSON object. The one contract of this crate: from a snapshot and the commands that were refused
//! `full_pieces` gives the text of the object, in pieces.
#![tactic(auto)]

pub mod event_numbers;
pub mod events;
pub mod figures;
pub mod full;
pub mod refusal;
pub mod settings;
mod titles;
