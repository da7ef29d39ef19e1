//! What is asked of a slot of a run. The one contract of this folder: words are read as the slot, the task and the format that they
//! tell, or the first of them that is mistaken is told.

pub mod mistake;
pub mod question;
pub mod read;
pub mod task_asked;
