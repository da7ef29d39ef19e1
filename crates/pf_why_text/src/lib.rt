//! Why a slot of a run went as it did, in words. The one contract of this crate: each call gives the bytes of its text.
#![tactic(auto)]

pub mod answer;
pub mod asked;
pub mod events;
pub mod head;
pub mod laws;
pub mod ranks;
pub mod seating;
pub mod slot;
pub mod whereabouts;
