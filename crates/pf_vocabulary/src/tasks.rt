//! Lists of tasks: which of them are shown. The one contract of this folder: a list has a task exactly where one of its
//! ranges has it.

pub mod task_list;
pub mod task_range;
