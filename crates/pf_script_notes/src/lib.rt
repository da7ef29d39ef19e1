//! The notes of a script: what is told after a run of it, and after the line of its fault, whatever its version. The one contract
//! of this crate: each call gives its text, of what a desk shows that was asked the script's commands.
#![tactic(auto)]

pub mod behind_fault;
pub mod behind_run;
