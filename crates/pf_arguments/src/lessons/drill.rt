/// What help of `drill` ends with.
pub const DRILL: &str = "\
It carries out the script of standard input, and writes the schedule at
its end and the quanta that were taken at the time. To see a schedule,
use run.

Status: 0 done, 1 bad record, 2 words, 3 files, 4 memory or no place for a
reader, 5 a gate stayed shut
";
