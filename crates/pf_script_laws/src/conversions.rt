//! The script that a conversion writes, as a plan is read. The one contract of this folder: each of its records
//! says what the plan says of it, and none has a fault.

pub mod laws;
