//! Hints for words that the program does not take. The one contract of this folder: a hint is what would be right in place of the
//! words, those of theirs that it shows quoted for a shell.

mod command;
mod help;
pub(crate) mod refused;
mod script;
pub(crate) mod words;
