//! The program's words carried out. The one contract of this crate: words that ask for a run, and no others, have
//! `main_words` run the script, in the format that they ask for; words that ask for a check have it check the script, those
//! that ask what its last records changed have it tell that, those that name two scripts have it tell what differs between them, those that ask for a drill have it drilled, and those that ask for a desk have a session held.
#![tactic(auto)]

mod answering;
mod desk;
pub mod drill;
mod ending;
mod fault_line;
mod gone;
mod kept_desk;
mod kept_made;
mod manner;
mod noted;
mod notes;
mod noting;
mod open_gate;
mod output_file;
mod pair_notes;
pub mod program;
pub mod run;
pub mod run_fault;
mod sat;
mod script_source;
mod task_end;
mod tasks;
mod text_answer;
mod two_scripts;
mod versions;

pub use pf_drill::gate;
pub use pf_journal_file::host_journals;
pub use pf_session_turns::files;
pub use pf_stream::pipes::{kept_writer, pipe};
pub use pf_stream::{patient, sink, source};
pub use pf_vocabulary::options::format;
