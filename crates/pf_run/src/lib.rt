//! What the run of a scenario is: which subtasks run in each slot and which events are denied, from slot zero. Its one
//! contract: a scenario has one run over a number of slots, which rests on the events of its slots alone and begins with
//! the shorter runs.
#![tactic(auto)]

pub mod denied;
pub mod laws;
