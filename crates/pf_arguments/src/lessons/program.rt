/// What help of the program ends with.
pub const PROGRAM: &str = "\
A plan is a file of records, one a line; # begins a comment:
  plan,1                              its first line
  settings,M,BASE                     M processors; each period divides BASE
  join,SLOT,TASK,COST,PERIOD[,EARLY]  TASK gets COST of every PERIOD slots
  leave,SLOT,TASK    delay,SLOT,TASK,BY    limit,SLOT,COUNT
  step,N                              N slots pass

Try it:
  printf 'plan,1\\nsettings,1,4\\njoin,0,1,1,2\\njoin,0,2,1,4\\nstep,8\\n' > a.csv
  pfair fit a.csv
  pfair run -f chart a.csv

More: pfair COMMAND --help, pfair help plan|list|formats|status|script
";
