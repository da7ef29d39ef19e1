//! The order of subtasks: keys that can only be compared through a meter, which counts each comparison. Its one
//! contract: `Meter::before` is the published order of PD2 and counts one.
#![tactic(auto)]

pub mod key;
pub mod laws;
pub mod meter;
pub mod pick;
