/// What help of `fit` ends with.
pub const FIT: &str = "\
A list (pfair help list tells more):
  name,work,every
  camera,4.5ms,33.3ms

Of a list: the quantum, how far each time may go, what comes next.

Status:
  0  it fits: nothing is refused or denied, and no window is missed
  6  it does not fit, or fits only so far
  1  a bad record or a fault of the list    2  words    3  files    4  memory

Example: pfair fit --switch 10us --arrivals any tasks.csv
";
