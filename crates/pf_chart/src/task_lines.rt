ghost use Rattle.std.specs.Prelude.{◌≡◌, ◌++◌, ◌-◌, map, IfOk, OnOk};
ghost use Rattle.std.specs.List.{range_with_len};
ghost use Rattle.pf_chart.specs.Chart.{row_cell, task_lines};

use crate::cells::{lag_cell, mark_cell, task_cell, window_cell};
use crate::labels::Labels;
use crate::line::{are_blank, push_line, push_line_if_any};
use crate::symbols::BLANK;
use crate::track_row::TrackRow;
use pf_courses::listed::Listed;
use std::alloc::{AllocError, Global};

/// The cell of slot t in one of the lines of a listed task.
pub fn row_cell(listed: &Listed, row: TrackRow, t: u64) -> u8
    ensures { result ≡ row_cell row listed.now t }
{
    if let TrackRow::Marks = row {
        if listed.denied().contains(&t) {
            return b'x';
        }
    }
    match listed.course() {
        Some(course) => match row {
            TrackRow::Runs => task_cell(course, t),
            TrackRow::Windows => window_cell(course, t),
            TrackRow::Lag => lag_cell(course, t),
            TrackRow::Marks => mark_cell(course, t),
        },
        None => BLANK,
    }
}

/// The cells of the slots from `from` on, below `to`, in one of its lines.
pub fn row_cells(
    alloc: Global,
    listed: &Listed,
    row: TrackRow,
    from: u64,
    to: u64,
) -> Result<Vec<u8>, AllocError>
    ensures { IfOk result (λ v. v.items ≡ map (row_cell row listed.now) (range_with_len from (to - from))) }
{
    let mut cells = Vec::new(alloc);
    for t in from..to {
        cells.push(row_cell(listed, row, t))?;
    }
    Ok(cells)
}

/// Appends its lines, where it has this rank, with the slots from `from` on, below `to`: none where all are blank.
pub fn push_task_lines(
    alloc: Global,
    text: &mut Vec<u8>,
    listed: &Listed,
    labels: &Labels<'_>,
    rank: usize,
    from: u64,
    to: u64,
) -> Result<(), AllocError>
    ensures { OnOk result (text.new.items ≡ text.old.items ++ task_lines labels.now (range_with_len from (to - from)) rank listed.now) }
{
    let runs = row_cells(alloc, listed, TrackRow::Runs, from, to)?;
    let windows = row_cells(alloc, listed, TrackRow::Windows, from, to)?;
    let lag = row_cells(alloc, listed, TrackRow::Lag, from, to)?;
    let marks = row_cells(alloc, listed, TrackRow::Marks, from, to)?;
    if are_blank(&runs) && are_blank(&windows) && are_blank(&lag) && are_blank(&marks) {
        return Ok(());
    }
    let places = labels.places();
    let label = labels.of_task(alloc, rank, listed.task())?;
    push_line(text, places, &label, &runs)?;
    push_line_if_any(text, places, b"  windows", &windows)?;
    push_line_if_any(text, places, b"  lag", &lag)?;
    push_line_if_any(text, places, b"  marks", &marks)
}
