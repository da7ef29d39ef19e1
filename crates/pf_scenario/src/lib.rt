//! What is planned: settings, numbered events, and changes to them. Its one contract: a change acts on the list of
//! events, and a refused one leaves it.
#![tactic(auto)]

mod agenda;
pub mod apply_fault;
mod by_number;
mod card;
pub mod change;
pub mod checked_change;
pub mod event;
pub mod events;
pub mod fault;
mod found;
mod guide;
pub mod laws;
pub mod limits;
pub mod packed_event;
mod place;
pub mod scenario;
pub mod settings;
mod shared_agenda;
mod tables;
