//! The shared desk for callers in other languages: each call is one of pf_shared_desk, at a handle that one thread at a time
//! has, and none waits. The one contract of this crate: whatever a caller passes within the types of C, each command is
//! answered as the desk machine answers it after the one history, each quantum is handed out once, each snapshot stands for
//! a legal history of the desk, and a call that answers that it is busy did nothing. `include/pfair_shared.h` is its header.
#![tactic(auto)]

mod commands;
mod content;
mod handle;
mod opening;
mod raw_quantum;
mod readings;
mod rows;
mod takes;
