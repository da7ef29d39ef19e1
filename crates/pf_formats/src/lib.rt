//! The formats of a report: one table that tells the text of each, and one call that gives it in pieces; and the same of what is
//! shown of some tasks alone. The one contract of this crate: of what a snapshot shows, the pieces of a format are its text.
#![tactic(auto)]

pub mod document_pieces;
mod document_reports;
pub mod drawing_pieces;
mod ranged_reports;
pub mod report;
pub mod report_pieces;
pub mod table_pieces;
mod table_reports;
mod tables;
pub mod task_pieces;
pub mod task_report;
