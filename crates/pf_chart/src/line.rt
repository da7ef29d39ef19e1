ghost use Rattle.std.specs.Prelude.{◌≡◌, ◌++◌, ◌≤◌, length, OnOk};
ghost use Rattle.pf_chart.specs.Chart.{are_blank, line_if_any, line_text, trimmed};

use crate::symbols::BLANK;
use std::alloc::AllocError;

/// The line without the blanks at its end.
fn trimmed(line: &[u8]) -> &[u8]
    ensures { result.now ≡ trimmed line.now }
{
    let mut end = line.len();
    while end > 0 && line[end - 1] == BLANK {
        end -= 1;
    }
    &line[..end]
}

/// Whether all of these cells are blank.
pub fn are_blank(cells: &[u8]) -> bool
    ensures { result ≡ are_blank cells.now }
{
    cells.iter().all(|cell| *cell == BLANK)
}

/// Appends a line: its label in so many places, and its cells after them, without the blanks at its end. Where memory is
/// refused a part of it may stand there.
pub fn push_line(
    text: &mut Vec<u8>,
    places: usize,
    label: &[u8],
    cells: &[u8],
) -> Result<(), AllocError>
    ensures { OnOk result (text.new.items ≡ text.old.items ++ line_text places label.now cells.now) }
{
    let mut line = Vec::from_slice(*text.allocator(), label)?;
    for place in label.len()..places {
        line.push(BLANK)?;
    }
    line.extend_from_slice(cells)?;
    text.extend_from_slice(trimmed(&line))?;
    text.push(b'\n')?;
    Ok(())
}

/// Appends a line, unless its cells are blank.
pub fn push_line_if_any(
    text: &mut Vec<u8>,
    places: usize,
    label: &[u8],
    cells: &[u8],
) -> Result<(), AllocError>
    ensures { OnOk result (text.new.items ≡ text.old.items ++ line_if_any places label.now cells.now) }
{
    if are_blank(cells) {
        return Ok(());
    }
    push_line(text, places, label, cells)
}
