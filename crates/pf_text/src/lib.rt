//! Text in and out: the rows of a text that people wrote, tables as csv writes them and in columns, numbers, and how a file's name and a
//! field are shown. The one contract of this crate: what is handed out piece by piece is the whole text in its order, a table's text is
//! that of its records, and rows are read as they stand, each with its line.
#![tactic(auto)]

pub mod character;
pub mod columns;
pub mod escape;
pub mod fields;
pub mod file_name;
pub mod numbers;
pub mod pair_text;
pub mod pieces;
pub mod quoted;
pub mod records;
pub mod rows;
pub mod sheets;
pub mod table;
