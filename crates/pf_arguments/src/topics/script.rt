/// What help tells of the topic `script`.
pub const SCRIPT: &str = "\
A plan is a script for people (pfair help plan). Two older forms are for
programs: no comments, blanks, names or labels, and each field is there.

Version 1 has no heading:
  settings,M,BASE,CAP,EVERY         the first record
  join,SLOT,TASK,COST,PERIOD,EARLY
  leave,SLOT,TASK
  delay,SLOT,TASK,BY
  alter,ID, and a join, leave or delay
  strike,ID
  strict, and any of these changes
  step    step,N

Version 2 begins with pfair,2, has limit,SLOT,COUNT too, and steps up to
4194304 slots, where version 1 steps up to 1048576.

run -f script writes a script again as it stands at its end.
";
