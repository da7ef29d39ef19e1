ghost use Rattle.std.specs.Prelude.{◌≡◌, ◌++◌, ◌≤◌, ◌∷◌, [], All, IfOk, OnOk, codes};
ghost use Rattle.std.specs.Option.{is_some};
ghost use Rattle.pf_vocabulary.specs.Names.Names.{name_of};
ghost use Rattle.pf_fit_text.specs.Cells.{is_named};
ghost use Rattle.pf_fit_text.specs.Rows.{front_cells, grow_at, heading_if, heading_row, table_rows, task_row, with_rates};

use crate::cells::{
    grow_cell, lag_cell, number_cell, push_name, push_time, rate_cell, ratio_cell, response_cell,
    utilization_cell,
};
use pf_tally::figures::Figures;
use pf_text::columns::row::Row;
use pf_verdict::findings::Findings;
use pf_vocabulary::names::names::Names;
use pf_vocabulary::names::slot_length::SlotLength;
use pf_vocabulary::names::titles::Titles;
use std::alloc::{AllocError, Global};

/// Whether the task has a name.
fn has_name(names: &Names, task: u64) -> bool
    ensures { result ≡ is_some (name_of names.now task) }
{
    match names.of_task(task) {
        Some(_) => true,
        None => false,
    }
}

/// Whether one of these tasks has a name.
fn is_named(names: &Names, figures: &[Figures]) -> bool
    ensures { result ≡ is_named names.now figures.now }
{
    for task in figures {
        if has_name(names, u64::from(task.task)) {
            return true;
        }
    }
    false
}

/// Adds a heading.
fn push_heading(alloc: Global, row: &mut Row, heading: &[u8]) -> Result<(), AllocError>
    ensures { OnOk result (row.new ≡ row.old ++ heading.now ∷ []) }
{
    row.push(Vec::from_slice(alloc, heading)?)
}

/// Adds a heading, where its column is there.
fn push_heading_if(
    alloc: Global,
    row: &mut Row,
    there: bool,
    heading: &[u8],
) -> Result<(), AllocError>
    ensures { OnOk result (row.new ≡ row.old ++ heading_if there heading.now) }
{
    if there {
        push_heading(alloc, row, heading)
    } else {
        Ok(())
    }
}

/// The headings.
fn heading_row(alloc: Global, named: bool, timed: bool) -> Result<Row, AllocError>
    ensures { IfOk result (λ row. row ≡ heading_row named timed) }
{
    let mut row = Row::new(alloc);
    push_heading(alloc, &mut row, b"task")?;
    push_heading_if(alloc, &mut row, named, b"name")?;
    push_heading(alloc, &mut row, b"weight")?;
    push_heading(alloc, &mut row, b"utilization")?;
    push_heading(alloc, &mut row, b"response")?;
    push_heading_if(alloc, &mut row, timed, b"time")?;
    push_heading(alloc, &mut row, b"lag")?;
    push_heading(alloc, &mut row, b"preemptions/job")?;
    push_heading(alloc, &mut row, b"migrations/job")?;
    push_heading(alloc, &mut row, b"fits up to")?;
    Ok(row)
}

/// What a task is, and how soon its jobs were done.
fn front_cells(
    alloc: Global,
    named: bool,
    names: &Names,
    slot: Option<SlotLength>,
    figures: Figures,
) -> Result<Row, AllocError>
    requires { 1 ≤ figures.period }
    ensures { IfOk result (λ row. row ≡ front_cells named names.now slot figures) }
{
    let Figures {
        task,
        cost,
        period,
        ..
    } = figures;
    let mut row = Row::new(alloc);
    row.push(number_cell(alloc, task)?)?;
    push_name(alloc, &mut row, named, names, u64::from(task))?;
    row.push(ratio_cell(alloc, cost, period)?)?;
    row.push(utilization_cell(alloc, cost, period)?)?;
    row.push(response_cell(alloc, figures.response, period)?)?;
    push_time(alloc, &mut row, slot, figures)?;
    Ok(row)
}

/// After these cells its lag, how it moved, and the greatest cost that it may have.
fn with_rates(
    alloc: Global,
    cells: Row,
    figures: Figures,
    grow: Option<u64>,
) -> Result<Row, AllocError>
    requires { 1 ≤ figures.period }
    ensures { IfOk result (λ row. row ≡ with_rates cells figures grow) }
{
    let mut row = cells;
    row.push(lag_cell(alloc, figures.lag, figures.period)?)?;
    row.push(rate_cell(alloc, figures.preemptions, figures.jobs)?)?;
    row.push(rate_cell(alloc, figures.migrations, figures.jobs)?)?;
    row.push(grow_cell(alloc, grow, figures.period)?)?;
    Ok(row)
}

/// The row of a task.
fn task_row(
    alloc: Global,
    named: bool,
    titles: &Titles,
    figures: Figures,
    grow: Option<u64>,
) -> Result<Row, AllocError>
    requires { 1 ≤ figures.period }
    ensures { IfOk result (λ row. row ≡ task_row named titles.now.names titles.now.slot figures grow) }
{
    let cells = front_cells(alloc, named, &titles.names, titles.slot, figures)?;
    with_rates(alloc, cells, figures, grow)
}

/// The k-th of these costs.
pub(crate) fn grow_at(grows: &[Option<u64>], k: usize) -> Option<u64>
    ensures { result ≡ grow_at grows.now k }
{
    match grows.get(k) {
        Some(grow) => *grow,
        None => None,
    }
}

/// The headings, and a row for each task.
pub(crate) fn table_rows(
    alloc: Global,
    findings: &Findings,
    titles: &Titles,
) -> Result<Vec<Row>, AllocError>
    requires { All (λ f. 1 ≤ f.period) findings.now.figures }
    ensures { IfOk result (λ v. v.items ≡ table_rows titles.now.names titles.now.slot findings.now.figures findings.now.grows) }
{
    let named = is_named(&titles.names, &findings.figures);
    let heading = heading_row(alloc, named, titles.slot.is_some())?;
    let mut rows = Vec::new(alloc);
    rows.push(heading)?;
    for (k, figures) in findings.figures.iter().enumerate() {
        let grow = grow_at(&findings.grows, k);
        rows.push(task_row(alloc, named, titles, *figures, grow)?)?;
    }
    Ok(rows)
}
