/// What help of `diff` ends with.
pub const DIFF: &str = "\
Four tables of what differs: schedule, lags, misses, denials. Records are
counted from 1.

Status: 0 done, 1 bad record or --exit-code, 2 words, 3 files, 4 memory
Example: pfair diff --summary old.csv new.csv
";
