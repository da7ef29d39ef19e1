//! A desk that many threads share, none of which waits for another: planners edit and step, dispatchers take the quanta of
//! the processors, readers read snapshots, all with one history. Where another caller is at the desk, an edit or a step
//! answers that it is busy, and nothing was done. So the desk may stand in a static library, which has no lock.
#![tactic(auto)]

pub mod caller;
pub mod common;
pub mod desk_core;
pub mod opened;
pub mod reader;
pub mod shown;
pub mod slot_take;
pub mod unanswered;
