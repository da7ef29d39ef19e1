ghost use Rattle.std.specs.Prelude.{◌≡◌, slice_index_or, []};
ghost use Rattle.pf_vocabulary.specs.TaskLines.Lines.{fields_from, is_shown};

use crate::tasks::task_list::TaskList;
use pf_text::numbers::parse_number;

/// Whether a line is shown: its field in the column is a task of the list, or no number.
pub(crate) fn is_shown(tasks: &TaskList, column: usize, line: &[u8]) -> bool
    ensures { result ≡ is_shown tasks.now column line.now }
{
    match parse_number(field_of(column, line)) {
        Some(task) => tasks.has(task),
        None => true,
    }
}

/// The field of a line in a column, without a byte where it has none.
fn field_of(column: usize, line: &[u8]) -> &[u8]
    ensures { result.now ≡ slice_index_or (fields_from [] line.now) column [] }
{
    let mut left = column;
    let mut start = 0;
    for end in 0..line.len() {
        if line[end] == b',' {
            if left == 0 {
                return &line[start..end];
            }
            left -= 1;
            start = end + 1;
        }
    }
    if left == 0 { &line[start..] } else { &[] }
}
