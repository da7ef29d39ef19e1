//! A list of tasks told in time. The one contract of this folder: what a list tells are its tasks, or the messages of its faults,
//! each the first of its record.

pub mod column;
pub mod fault;
pub mod file_fault;
pub mod file_report;
pub mod heading;
pub mod heading_report;
pub mod hints;
pub mod kind;
pub mod list;
pub mod list_head;
pub mod listed;
pub mod message;
pub mod messages;
pub mod open_line;
pub mod parts;
pub mod place;
pub mod read;
pub mod reading_state;
pub mod shown_unit;
pub mod task_report;
pub mod tasks;
pub mod time;
pub mod unit_rule;
