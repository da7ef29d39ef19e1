//! What a session shows: its desk in a format, why a slot went as it did, and whether its script fits. The one contract of this crate:
//! a text that is shown is the one that the program gives of such a desk or of the script's bytes, by the same definitions, and what
//! can't be shown is told by the words of its fault.
#![tactic(auto)]

mod answer;
mod desk_shown;
pub mod desk_views;
mod show;
mod words;
