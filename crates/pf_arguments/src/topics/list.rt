/// What help tells of the topic `list`.
pub const LIST: &str = "\
pfair fit and pfair convert read a list of tasks, with a heading and a line
for each task; comments, blanks and empty lines are as in a plan.

  name      or task: a letter, then up to 23 letters, digits, spaces, _ - . +
  work      or wcet, cost, C: what a job takes at most
  every     or period, T: the time between two jobs at least
  deadline  or D: how soon a job is due, up to every [default: every]
  first     when the first job comes [default: 0]
  early     how long before its window a quantum may run [default: 0]

Columns stand in any order, named in any letters; the last three may be left
out. A time is a number, as 33.3 or .5, with ns, us, ms or s behind it or
without; without it is in ms or what --unit tells. Where some times have a
unit and others none, --unit is needed.

  name,work,every,deadline
  camera,4.5ms,33.3ms,20ms
  lidar,12ms,50ms,

Jobs come as a slot begins; with --arrivals any at any time.
";
