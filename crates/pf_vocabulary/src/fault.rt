//! What the program's tasks answer, and why they end early. The one contract of this folder: a fault ends the program with its
//! status, and a status has its number.

pub mod answer;
pub mod ending;
pub mod fault;
pub mod range_fault;
pub mod status;
