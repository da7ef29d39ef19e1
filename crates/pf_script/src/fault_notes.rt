//! What is told of a fault that is of no record: of a file that can't be read, which fault; of a range that can't be shown, which end is
//! beyond. The one contract of this folder: each call gives its text.

pub mod file_fault;
pub mod range;
