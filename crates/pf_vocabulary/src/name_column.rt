//! The last column of a table of tasks: in a plan what the script calls each. The one contract of this folder: a heading
//! and a record end in that column where the script is a plan, and else they are as they were.

pub mod column;
