//! A script carried out. The bytes of a script are taken apart into records; each is a line of the script, which a desk answers.
//! The one contract of this crate: the desk at the end, and the lines of its replies on the way, are those that the desk machine gives
//! for what the script asks.
#![tactic(auto)]

pub mod at_end;
mod batching_desk;
mod commands;
pub mod script_replies;
