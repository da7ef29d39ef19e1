//! The course of each task in a run: its windows, where it ran, its stops and its lags, from its join to its end; and which
//! tasks are listed, with what is told of each. The one contract of this crate: from a scenario and the rows and the denials of
//! its run `courses` and `listings` give what the definitions say of that run.
#![tactic(auto)]

pub mod counts;
pub mod course;
pub mod courses;
pub mod end;
mod lags;
pub mod listed;
pub mod listings;
pub mod pause;
pub mod quantum;
pub mod window;
pub mod windows;
