//! The tasks that words list, by numbers, ranges of them and names. The one contract of this folder: a text is read as the list
//! that it is, where it is one, and of the names of tasks a list has the tasks of its numbers and those that have its names.

pub mod task_word;
pub mod task_words;
