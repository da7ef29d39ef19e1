//! Why a slot of a run went as it did. Its one contract: from a snapshot, the subtasks that may run in a slot in the order of
//! PD2, the rule that puts each after the one before it, and where and why each runs or waits.
#![tactic(auto)]

pub mod halt;
pub mod laws;
pub mod point;
pub mod ranking;
pub mod rule;
pub mod seat;
pub mod subtask;
pub mod upcoming;
