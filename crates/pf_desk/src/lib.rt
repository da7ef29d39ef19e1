//! The planner's desk for one caller. Its one contract: after any list of commands its history is legal, and what it
//! shows is the run from slot zero of the scenario as it now stands.
#![tactic(auto)]

mod apply_all;
mod batch;
mod brief;
mod briefs;
pub mod command;
pub mod desk;
pub mod entry;
pub mod entry_view;
pub mod fault;
pub mod history;
pub mod laws;
mod never_misses;
pub mod prepared;
pub mod reply;
pub mod reply_view;
pub mod rows;
mod run;
mod scenario_run;
mod settled;
mod settlements;
mod small_edit;
pub mod snapshot;
