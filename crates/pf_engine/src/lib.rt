//! One slot of a run. Its one contract: an engine that fits a scenario and a run of it gives the next slot of that
//! run, and then fits the longer run.
#![tactic(auto)]

mod agenda;
pub mod engine;
mod kept_task;
pub mod outcome;
mod room;
mod roster;
pub mod saved_engine;
mod saved_task;
mod state;

pub use pf_run::denied;
