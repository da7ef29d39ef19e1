//! A list of tasks in time made into a script in slots. The one contract of this folder: what is written is the text of the plan
//! of each quantum, and where there is none the lines of its faults.

pub mod bad_list;
pub mod choice;
pub mod convert;
pub mod json;
pub mod laws;
pub mod list_file;
pub mod notes;
pub mod plan_faults;
pub mod planned;
pub mod report;
pub mod script;
pub mod script_answer;
pub mod series;
pub mod series_answer;
pub mod slots;
pub mod summary;
pub mod table;
pub mod times;
pub mod tried;
pub mod tried_line;
