/// What help of `why` ends with.
pub const WHY: &str = "\
Status: 0 done, 1 bad record, 2 words or no such slot, 3 files, 4 memory
Example: pfair why 3 --task camera plan.csv
";
