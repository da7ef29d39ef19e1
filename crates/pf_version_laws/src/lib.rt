//! The script of version 2 that belongs to a plan, read again. The one contract of this crate: it tells what the
//! records of a plan ask for, and is bad where one of them is.
#![tactic(auto)]

pub mod laws;
