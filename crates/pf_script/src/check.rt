//! Scripts checked without carrying them out. The one contract of this folder: what a check finds are the messages of the records that
//! the format does not allow, taking each as though it were not there, and how many records there are; that settings are lacking is told
//! once.

pub mod fault_lines;
pub mod faults;
pub mod file_kind;
pub mod found;
pub mod laws;
pub mod report;
pub mod script_faults;
