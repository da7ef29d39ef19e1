//! Why commands were refused and events denied, in sentences, and what would be right. The contracts of this crate: what a denial
//! rests on, why a task is not inside, and what was wrong with a change are those of the run and the scenario, and each has its
//! sentence and its hint.
#![tactic(auto)]

pub mod absence;
mod delays;
pub mod grounds;
pub mod hint;
mod in_force;
mod inside;
pub mod laws;
mod periods;
mod quantum;
pub mod reasons;
pub mod refusal;
pub mod subject;
mod walk;
pub mod words;
