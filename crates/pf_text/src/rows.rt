//! The rows of texts that people write: CSV with comments and with blanks around the fields. The one contract of this folder: a
//! reader answers row by row what rows a text has, each with the line on which it begins.

mod place;
mod records;
mod row_lines;
pub mod rows;
