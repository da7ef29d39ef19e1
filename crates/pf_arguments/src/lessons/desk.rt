/// What help of `desk` ends with.
pub const DESK: &str = "\
A line is a record of a plan, or one of these words; blanks may stand in
place of commas:
  schedule chart stats ..   a format of run; of some F, or F and T
  why SLOT [TASK]   fit     as the commands
  undo                      takes the last change back
  save FILE                 writes the plan
  help   quit               all words

Status: 0 ended, 1 a line was bad, 2 words, 3 files, 4 memory
Example: pfair desk --journal plan.kept
";
