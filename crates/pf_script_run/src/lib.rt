//! A script that is carried out without its replies being written. The one contract of this crate: the desk has the settings of
//! the script and was asked its commands, one after another, or the script's first bad record is told.
#![tactic(auto)]

pub mod carry;
