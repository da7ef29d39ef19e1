//! Drills: a script on a shared desk, with a worker thread for each processor. The one contract of this crate: what a drill
//! writes is the schedule of the script, and the quanta of its steps, each of which the worker of its processor took.
#![tactic(auto)]

mod at_gate;
mod crew;
pub mod drill;
pub mod gate;
mod lines;
mod output;
pub mod planner;
mod rounds;
pub mod shift;
pub mod taken;
pub mod worker;
