//! The faults of plans. The one contract of this folder: `PlanFaults` answers one after another all faults that a plan has.

pub mod plan_faults;
pub mod report;
