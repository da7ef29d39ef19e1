//! The texts of the answers that a session gives at a desk, for people and as JSON. The one contract of this crate: each call
//! appends the bytes of its text.
#![tactic(auto)]

pub mod bad;
pub mod changes;
pub mod counts;
mod items;
mod keys;
pub mod manner;
mod quoted;
pub mod refused;
pub mod shown;
pub mod slots;
pub mod steps;
pub mod telling;
