//! A session at a desk: what came of its lines so far, and the answers to records, to `undo` and `redo`, and to bad lines. The contracts of this
//! crate: the answers and the state after them are those of `specs/`; a call that runs out of memory changes nothing.
#![tactic(auto)]

mod edit;
mod edit_answer;
pub mod made;
mod open;
mod pair;
mod reversal;
pub mod session;
mod session_desk;
pub mod shows;
mod step;
pub mod stop;
mod take_record;
