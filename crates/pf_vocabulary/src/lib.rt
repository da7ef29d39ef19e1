//! The plain values that people, the program and texts share, each a folder: the names of tasks, which tasks are shown, formats and
//! looks, questions, and faults with their statuses. The one contract of this crate: words are read as the values that they tell, or
//! the first of them that is mistaken is told; and values are told in these words.
#![tactic(auto)]

pub mod fault;
pub mod look;
pub mod name_column;
pub mod names;
pub mod options;
pub mod questions;
pub mod task_lines;
pub mod task_words;
pub mod tasks;
