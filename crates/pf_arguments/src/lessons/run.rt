/// What help of `run` ends with.
pub const RUN: &str = "\
Formats (pfair help formats tells more):
  to look at    chart svg html
  tables        stats jobs windows quanta schedule load processors
                misses lags denials events
  for programs  full trace c script
  replies       tables replies json report
A range is for schedule chart svg windows load quanta,
--task for windows jobs quanta stats lags misses chart svg.

Status: 0 done, 1 bad record, 2 words, 3 files, 4 memory, 6 --fail-on
Example: pfair run -f html -o plan.html plan.csv
";
