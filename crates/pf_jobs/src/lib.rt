//! Tables of a run beside its schedule. The one contract of this crate: from a snapshot each call gives the bytes of the
//! table.
#![tactic(auto)]

pub mod job;
pub mod jobs;
pub mod laws;
pub mod load;
pub mod task_run;
