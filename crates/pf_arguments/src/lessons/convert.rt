/// What help of `convert` ends with.
pub const CONVERT: &str = "\
A list (pfair help list tells more):
  name,work,every
  camera,4.5ms,33.3ms

Status:
  0  done    6  it does not fit the processors, or no quantum fits
  1  the list has a fault    2  words    3  files    4  memory

Example: pfair convert --quantum 0.5ms -o plan.csv tasks.csv
";
