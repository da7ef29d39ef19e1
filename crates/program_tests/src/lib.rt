//! What no clause of the program says: with which status it answers words that ask for help and words that are refused, what a
//! run of the first example writes and what a shut gate of a drill answers, and the texts of faults.
#![tactic(auto)]

#[cfg(test)]
mod calls;
#[cfg(test)]
mod texts;
#[cfg(test)]
mod words;
