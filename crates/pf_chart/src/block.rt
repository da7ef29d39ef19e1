ghost use Rattle.std.specs.Prelude.{◌≡◌, ◌<◌, ◌≤◌, ◌==◌, ◌-◌, ◌++◌, [], codes, length, map, slice_index_or, IfOk, OnOk};
ghost use Rattle.std.specs.Fmt.{decimal};
ghost use Rattle.std.specs.List.{flat_map, position, range_with_len};
ghost use Rattle.pf_place.specs.Lent.{lent_row};
ghost use Rattle.pf_chart.specs.Chart.{all_task_lines, block_of, line_text, processor_cell, processor_line, symbol_of};
ghost use Rattle.pf_courses.specs.Listing.{count_in, counts_of};

use crate::labels::Labels;
use crate::line::push_line;
use crate::ruler::push_rulers;
use crate::symbols::{LEFT_OUT, rank_symbol};
use crate::task_lines::push_task_lines;
use pf_courses::listed::Listed;
use pf_desk::rows::row_at;
use pf_desk::snapshot::Snapshot;
use pf_place::row_view::RowView;
use std::alloc::{AllocError, Global};

/// The place of a task among these.
fn place_of(listed: &[Listed], task: u32) -> Option<usize>
    ensures { result ≡ position (λ l. l.task == task) listed.now }
{
    listed.iter().position(|listing| listing.task() == task)
}

/// The symbol of a task among these; a dot where it is none of them.
fn symbol_of(listed: &[Listed], task: u32) -> u8
    ensures { result ≡ symbol_of listed.now task }
{
    match place_of(listed, task) {
        Some(place) => rank_symbol(place + 1),
        None => LEFT_OUT,
    }
}

/// The cell of a slot with this row in the line of a processor, where so many are in use in it.
fn processor_cell(listed: &[Listed], count: u64, row: RowView<'_>, processor: u32) -> u8
    ensures { result ≡ processor_cell listed.now count (lent_row row.entry) processor }
{
    if count <= u64::from(processor) {
        return b'#';
    }
    match row.get(processor) {
        Some(pick) => symbol_of(listed, pick.task),
        None => b'-',
    }
}

/// How many processors are in use in slot t.
fn count_at(counts: &[u64], t: u64) -> u64
    requires { t < length counts.now }
    ensures { result ≡ slice_index_or counts.now t 0 }
{
    counts[t as usize]
}

/// The cells of the slots from `from` on, below `to`, in the line of a processor.
fn processor_cells(
    alloc: Global,
    snapshot: &Snapshot,
    listed: &[Listed],
    counts: &[u64],
    processor: u32,
    from: u64,
    to: u64,
) -> Result<Vec<u8>, AllocError>
    requires within { to ≤ length snapshot.now.rows }
    requires counts { counts.now ≡ counts_of snapshot.now.state.plan snapshot.now.state.now snapshot.now.rows }
    ensures { IfOk result (λ v. v.items ≡
        map (λ t. processor_cell listed.now (count_in snapshot.now.state.plan snapshot.now.state.now t) (slice_index_or snapshot.now.rows t []) processor) (range_with_len from (to - from))) }
{
    let mut cells = Vec::new(alloc);
    for t in from..to {
        let row = row_at(snapshot, t);
        let count = count_at(counts, t);
        cells.push(processor_cell(listed, count, row, processor))?;
    }
    Ok(cells)
}

/// Appends the line of a processor.
fn push_processor_line(
    alloc: Global,
    text: &mut Vec<u8>,
    places: usize,
    processor: u32,
    cells: &[u8],
) -> Result<(), AllocError>
    ensures { OnOk result (text.new.items ≡ text.old.items ++ line_text places (codes "p" ++ decimal processor) cells.now) }
{
    let label = format!(in alloc; "p{processor}")?;
    push_line(text, places, label.as_bytes(), cells)
}

/// Appends the lines of the processors, with the slots from `from` on, below `to`.
fn push_processors(
    alloc: Global,
    text: &mut Vec<u8>,
    places: usize,
    snapshot: &Snapshot,
    listed: &[Listed],
    counts: &[u64],
    from: u64,
    to: u64,
) -> Result<(), AllocError>
    requires within { to ≤ length snapshot.now.rows }
    requires counts { counts.now ≡ counts_of snapshot.now.state.plan snapshot.now.state.now snapshot.now.rows }
    ensures { OnOk result (text.new.items ≡ text.old.items ++
        flat_map (processor_line snapshot.now places listed.now (range_with_len from (to - from))) (range_with_len 0 snapshot.now.state.plan.settings.processors)) }
{
    for processor in 0..snapshot.settings().processors() {
        let cells = processor_cells(alloc, snapshot, listed, counts, processor, from, to)?;
        push_processor_line(alloc, text, places, processor, &cells)?;
    }
    Ok(())
}

/// Appends the lines of the listed tasks, with the slots from `from` on, below `to`.
fn push_tasks(
    alloc: Global,
    text: &mut Vec<u8>,
    labels: &Labels<'_>,
    listed: &[Listed],
    from: u64,
    to: u64,
) -> Result<(), AllocError>
    ensures { OnOk result (text.new.items ≡ text.old.items ++ all_task_lines labels.now (range_with_len from (to - from)) 1 listed.now) }
{
    let mut rank = 0;
    for listing in listed {
        rank += 1;
        push_task_lines(alloc, text, listing, labels, rank, from, to)?;
    }
    Ok(())
}

/// A block: the slots from `from` on, below `to`, of a snapshot with these listed tasks and their labels, where so many
/// processors are in use in each slot.
///
/// # Errors
///
/// Where memory is refused.
pub(crate) fn block_text(
    alloc: Global,
    snapshot: &Snapshot,
    labels: &Labels<'_>,
    listed: &[Listed],
    counts: &[u64],
    from: u64,
    to: u64,
) -> Result<Vec<u8>, AllocError>
    requires within { to ≤ length snapshot.now.rows }
    requires counts { counts.now ≡ counts_of snapshot.now.state.plan snapshot.now.state.now snapshot.now.rows }
    ensures { IfOk result (λ text. text.items ≡ block_of snapshot.now labels.now listed.now from (range_with_len from (to - from))) }
{
    let mut text = Vec::from_slice(alloc, b"\n")?;
    let places = labels.places();
    push_rulers(alloc, &mut text, places, from, to)?;
    push_processors(alloc, &mut text, places, snapshot, listed, counts, from, to)?;
    push_tasks(alloc, &mut text, labels, listed, from, to)?;
    Ok(text)
}
