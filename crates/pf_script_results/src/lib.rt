//! What the records of a script came to, found again in the history of the desk that carried them out. The one contract of this
//! crate: the record that made each event as it stands, and what was refused, are those of the script's records by the desk
//! machine.
#![tactic(auto)]

mod course;
mod outcome;
mod places;
pub mod recount;
pub mod recounting;
pub mod refused_record;
mod replies;
mod stop;
mod telling;
