//! Tables by task number. Their one contract: each number has a value, the fill value until another is set; and a table
//! takes the memory of the numbers up to the greatest that it was grown to, not of all that there are.

pub mod lists;
pub mod table;
