//! Numbers with decimals, and tables laid out in columns. The one contract of this folder: a quotient is told rounded up or
//! cut off, exactly, and each column of a table is as wide as its widest cell.

pub mod columns;
pub mod decimals;
pub mod row;
