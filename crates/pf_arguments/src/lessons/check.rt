/// What help of `check` ends with.
pub const CHECK: &str = "\
A line for each fault: FILE:LINE:COLUMN, what is wrong; then a hint.

Status: 0 no fault, 1 a fault, 2 words, 3 files, 4 memory
Example: pfair check --run plan.csv
";
