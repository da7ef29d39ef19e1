/// What help tells of the topic `plan`.
pub const PLAN: &str = "\
A plan is a script for people. Its first line is plan,1. Blanks around
fields, empty lines and lines that begin with # count for nothing.

  settings,M,BASE[,CAP[,EVERY]]  the second record. M: processors, 1 to 64.
                     BASE: a number that each period divides. CAP: the
                     most load in 1/BASE, or full, which is M * BASE
                     [default]. EVERY: the distance of checkpoints in
                     slots; it changes no answer [default: 64]
  slot,LENGTH,UNIT   how long a slot is: a whole number of ns, us, ms or s
  name,TASK,TEXT     TASK, 1 to 4095, has this name from here on
  join,SLOT,TASK,COST,PERIOD[,EARLY]
                     TASK gets COST of every PERIOD slots from SLOT on;
                     each quantum may come up to EARLY slots early
  leave,SLOT,TASK    it leaves
  delay,SLOT,TASK,BY its quanta come BY slots later from SLOT on
  limit,SLOT,COUNT   COUNT processors are in use from SLOT on
  label,TEXT,EVENT   a join, leave, delay or limit that is called TEXT;
                     label,TEXT,again,EVENT: one that takes a TEXT over
  alter,ID,EVENT     event ID, a number or a label, becomes this one
  strike,ID          it never was
  strict,CHANGE      any change above, refused where a slot already stepped
                     would then deny an event
  step[,N]           N slots pass, 1 where N is left out

Events are numbered from 1, and may lie in any slot, past or future. In
place of TASK may stand a name, in place of ID a label.

  # two cameras and a logger
  plan,1
  settings,2,12
  slot,500,us
  name,1,front
  join,0,front,3,4
  join,0,2,2,3
  join,0,3,1,6
  step,12
";
