//! A desk on which the lines of a script are carried out. The one contract of this crate: what the lines ask for is answered in
//! order, and what was not answered yet waits.
#![tactic(auto)]

pub mod carrying_desk;
