//! The program's scripts, run and checked. A desk carries a script out; replies and reports go to a writer in pieces. The one
//! contract of this crate: what `run` writes, and how it ends, is what the script's bytes mean, or a front of that text where the
//! writer failed or memory was refused.
#![tactic(auto)]

pub mod check;
mod failing;
pub mod laws;
pub mod ran;
mod refusals;
pub mod run;
pub mod task_run;
