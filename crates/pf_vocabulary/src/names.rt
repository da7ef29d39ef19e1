//! What a script calls its tasks, and how long it says that a slot is. The one contract of this folder: the names given so far
//! are those of their tasks, no task has two and no two tasks share one.

pub mod fault;
pub mod name;
pub mod named;
pub mod names;
pub mod slot_length;
pub mod titles;
pub mod unit;
