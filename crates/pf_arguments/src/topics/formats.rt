/// What help tells of the topic `formats`.
pub const FORMATS: &str = "\
To look at:
  chart       in characters: who runs where, windows, lags, what is late
  svg         the same as a picture; --cell, --wrap and --style
  html        a page to look around in, one file
Tables (CSV):
  stats       of each task: quanta, moves, preemptions, responses, lags
  jobs        each job: release, deadline, finish, response, tardiness
  windows     each window: release, deadline, bit, group deadline, where
  quanta      a line for each quantum
  schedule    a line for each slot: task/subtask on each processor
  load        load and room, where one of them changes
  processors  quanta, idle slots and changes of each processor
  misses      missed windows
  lags        how far each task is from its fair share at the end
  denials     events that are denied
  events      events held
For programs:
  full        one JSON object with all of this; the one to read by program
  trace       trace events, for ui.perfetto.dev and chrome://tracing
  c           a C header with the schedule
  script      the script as it stands at its end
Replies, as each record was read:
  tables      replies, then schedule, lags, misses, denials [default]
  replies     replies alone
  json        replies, and then the object of report: no JSON as a whole
  report      a JSON object: schedule, lags, misses, denials
";
