//! A script that is checked and then carried out: the lines of its faults, or, where it has none, what was refused, denied and
//! missed. The one contract of this crate: the answer is that text, of the faults that a check finds, and else of what a desk shows
//! that was asked the script's commands.
#![tactic(auto)]

mod carried;
pub mod check_run;
mod not_run;
