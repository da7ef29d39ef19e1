/// What help tells of the topic `status`.
pub const STATUS: &str = "\
0  done; fit: it fits; check: no fault; a closed pipe
1  a bad record or line, or a script that is too long; check: a fault, or
   with --run something refused, denied or missed; diff --exit-code:
   something differs; fit, convert: a list has a fault; desk: a line was bad
2  words that are not understood, or slots that were not stepped
3  a file or stream that cannot be opened, read or written
4  out of memory; drill: no place for its reader
5  drill: a gate stayed shut
6  done, but: fit: does not fit, or fits only so far; run --fail-on: met;
   convert: does not fit the processors, or no quantum fits

What is wrong stands on standard error: FILE:LINE:COLUMN: and what, and
below it a hint of what would be right. run and drill of standard input
tell only bad record N, but with --notes.
";
