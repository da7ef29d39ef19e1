//! What the program's words ask for: a script run in a format or checked, what its last records changed, what differs between two, a
//! drill, a session at a desk, help. The words are read by clap's grammar of one command line. The one contract of this crate: what
//! `read_words` answers is what the words ask for, for all words; running out of memory may come in its place.
#![tactic(auto)]

mod argument;
mod command_line;
mod conversion_words;
pub mod desk_words;
mod diff_words;
mod fit_words;
mod form;
mod hints;
pub mod laws;
pub mod lessons;
mod lines;
pub mod mistake;
mod mistakes;
pub mod output_words;
pub mod request;
mod run_words;
pub mod script_pair;
mod subcommand;
mod subcommands;
pub mod task;
pub mod telling;
mod telling_words;
pub mod texts;
pub mod topics;
mod why_question;
pub mod words;
