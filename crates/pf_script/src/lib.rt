//! What scripts of every version tell, record by record, and what is wrong with them. The one contract of this crate: a reader answers
//! record by record what the script's bytes tell, or the first thing that is wrong with a record.
#![tactic(auto)]

pub mod check;
pub mod fault;
pub mod fault_notes;
pub mod fields;
pub mod line;
pub mod line_reader;
pub mod messages;
pub mod opened;
pub mod parse;
mod place;
pub mod plan;
pub mod plan_check;
pub mod reader;
pub mod record;
pub mod record_lines;
pub mod script;
pub mod stage;
pub mod state;
pub mod version;
