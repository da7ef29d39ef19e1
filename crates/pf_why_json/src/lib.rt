//! Why a slot of a run went as it did, as one JSON object. The one contract of this crate: each call gives the bytes of its text.
#![tactic(auto)]

mod events;
mod members;
mod numbers;
mod ranks;
pub mod slot;
