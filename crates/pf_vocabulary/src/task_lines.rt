//! The lines of a table that are of some tasks. The one contract of this folder: of a text in pieces the lines are left, in their
//! order, whose field in one column is a task of a list, or is no number, as in the heading.

mod line;
pub mod listed_lines;
