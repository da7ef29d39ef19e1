//! Figures of a schedule, as every simulator gives them. The one contract of this crate: from a snapshot each call gives
//! the bytes of the table.
#![tactic(auto)]

pub mod processors;
pub mod stats;
