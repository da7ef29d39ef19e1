//! What a script's last records change, and what differs between two desks. The one contract of this crate: what `diff` and
//! `compare` tell is what differs between the desk before a record of the script and the desk at its end, or between the two
//! desks, as tables, after their sums where these are asked for; and the status tells of a difference where it is asked to.
#![tactic(auto)]

pub mod compare;
pub mod diff;
pub mod laws;
mod lines;
mod taking;
