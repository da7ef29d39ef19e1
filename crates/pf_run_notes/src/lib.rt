//! The notes of a run: what is kept while a script is carried out, and the lines that tell of refused commands, denied events and
//! missed windows. The contracts of this crate: what is kept is what the commands and replies tell, and each line is its text.
#![tactic(auto)]

pub mod behind_run;
pub mod late;
pub mod lines;
pub mod made;
pub mod notes;
pub mod place;
pub mod refusals;
