//! The kept run of a scenario. Its one contract: a timeline stands for the scenario's run.
#![tactic(auto)]

mod checkpoint;
mod checkpoints;
pub mod fault;
pub mod laws;
mod near_checkpoints;
pub mod timeline;
