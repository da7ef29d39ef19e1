ghost use Rattle.std.specs.Prelude.{◌≡◌, ◌++◌, ◌∷◌, ◌≤◌, [], IfOk, OnOk, decimal, pos};
ghost use Rattle.pf_text.specs.Columns.Decimals.{up};
ghost use Rattle.pf_fit_text.specs.Cells.{grow_cell, lag_cell, name_cells, rate_cell, ratio_cell, response_cell, response_time, time_cell, time_cells, time_of};

use crate::element::push_element;
use pf_tally::extremes::Extremes;
use pf_tally::figures::Figures;
use pf_text::columns::decimals::{push_cut, push_up, push_wide};
use pf_text::columns::row::Row;
use pf_vocabulary::names::names::Names;
use pf_vocabulary::names::slot_length::SlotLength;
use std::alloc::{AllocError, Global};

/// A cost and a period.
pub(crate) fn ratio_cell(alloc: Global, cost: u64, period: u64) -> Result<Vec<u8>, AllocError>
    ensures { IfOk result (λ cell. cell.items ≡ ratio_cell cost period) }
{
    Ok(format!(in alloc; "{cost}/{period}")?.into_bytes())
}

/// The greatest response in the period.
#[tactic(auto, unfolding(crate::specs::Cells::response_cell))]
pub(crate) fn response_cell(
    alloc: Global,
    response: Option<Extremes>,
    period: u64,
) -> Result<Vec<u8>, AllocError>
    ensures { IfOk result (λ cell. cell.items ≡ response_cell response period) }
{
    let cell = match response {
        Some(response) => {
            let greatest = response.greatest;
            format!(in alloc; "{greatest} of {period}")?
        }
        None => format!(in alloc; "- of {period}")?,
    };
    Ok(cell.into_bytes())
}

/// So many slots in time.
fn time_of(alloc: Global, slot: SlotLength, count: i64) -> Result<Vec<u8>, AllocError>
    ensures { IfOk result (λ text. text.items ≡ time_of slot count) }
{
    let units = u128::from(count.unsigned_abs()) * u128::from(slot.length);
    let word = slot.unit.word();
    let text = if count < 0 {
        format!(in alloc; "-{units}{word}")?
    } else {
        format!(in alloc; "{units}{word}")?
    };
    Ok(text.into_bytes())
}

/// The greatest response in time.
fn response_time(
    alloc: Global,
    slot: SlotLength,
    response: Option<Extremes>,
) -> Result<Vec<u8>, AllocError>
    ensures { IfOk result (λ text. text.items ≡ response_time slot response) }
{
    match response {
        Some(response) => time_of(alloc, slot, response.greatest),
        None => Vec::from_slice(alloc, b"-"),
    }
}

/// The period in time.
fn period_time(alloc: Global, slot: SlotLength, period: u64) -> Result<Vec<u8>, AllocError>
    ensures { IfOk result (λ text. text.items ≡ time_of slot (pos period)) }
{
    let units = u128::from(period) * u128::from(slot.length);
    let word = slot.unit.word();
    Ok(format!(in alloc; "{units}{word}")?.into_bytes())
}

/// The greatest response and the period, in time.
#[tactic(auto, unfolding(crate::specs::Cells::time_cell))]
fn time_cell(
    alloc: Global,
    slot: SlotLength,
    response: Option<Extremes>,
    period: u64,
) -> Result<Vec<u8>, AllocError>
    ensures { IfOk result (λ cell. cell.items ≡ time_cell slot response period) }
{
    let mut cell = response_time(alloc, slot, response)?;
    push_element(&mut cell, " of ")?;
    cell.extend_from_slice(&period_time(alloc, slot, period)?)?;
    Ok(cell)
}

/// From the least to the greatest lag, in quanta.
#[tactic(auto, unfolding(crate::specs::Cells::lag_cell))]
pub(crate) fn lag_cell(alloc: Global, lag: Extremes, period: u64) -> Result<Vec<u8>, AllocError>
    requires { 1 ≤ period }
    ensures { IfOk result (λ cell. cell.items ≡ lag_cell lag period) }
{
    let mut cell = Vec::new(alloc);
    push_cut(&mut cell, lag.least, period, 3)?;
    push_element(&mut cell, " to ")?;
    push_cut(&mut cell, lag.greatest, period, 3)?;
    Ok(cell)
}

/// So many a job.
#[tactic(auto, unfolding(crate::specs::Cells::rate_cell))]
pub(crate) fn rate_cell(alloc: Global, count: u64, jobs: u64) -> Result<Vec<u8>, AllocError>
    ensures { IfOk result (λ cell. cell.items ≡ rate_cell count jobs) }
{
    let mut cell = Vec::new(alloc);
    if jobs == 0 {
        push_element(&mut cell, "-")?;
    } else {
        push_up(&mut cell, u128::from(count), u128::from(jobs), 2)?;
    }
    Ok(cell)
}

/// The greatest cost that the task may have, in its period.
#[tactic(auto, unfolding(crate::specs::Cells::grow_cell))]
pub(crate) fn grow_cell(
    alloc: Global,
    grow: Option<u64>,
    period: u64,
) -> Result<Vec<u8>, AllocError>
    ensures { IfOk result (λ cell. cell.items ≡ grow_cell grow period) }
{
    match grow {
        Some(cost) => ratio_cell(alloc, cost, period),
        None => Vec::from_slice(alloc, b"-"),
    }
}

/// Adds the task's name, or nothing where it has none; no cell where there is no column of names.
pub(crate) fn push_name(
    alloc: Global,
    row: &mut Row,
    named: bool,
    names: &Names,
    task: u64,
) -> Result<(), AllocError>
    ensures { OnOk result (row.new ≡ row.old ++ name_cells named names.now task) }
{
    if !named {
        return Ok(());
    }
    match names.of_task(task) {
        Some(name) => row.push(Vec::from_slice(alloc, name.as_bytes())?),
        None => row.push(Vec::new(alloc)),
    }
}

/// Adds the greatest response and the period, in time; no cell where the length of a slot was not told.
pub(crate) fn push_time(
    alloc: Global,
    row: &mut Row,
    slot: Option<SlotLength>,
    figures: Figures,
) -> Result<(), AllocError>
    ensures { OnOk result (row.new ≡ row.old ++ time_cells slot figures) }
{
    match slot {
        Some(slot) => row.push(time_cell(alloc, slot, figures.response, figures.period)?),
        None => Ok(()),
    }
}

/// A part of its period, rounded up.
pub(crate) fn utilization_cell(alloc: Global, cost: u64, period: u64) -> Result<Vec<u8>, AllocError>
    requires { 1 ≤ period }
    ensures { IfOk result (λ cell. cell.items ≡ up cost period 4) }
{
    let mut cell = Vec::new(alloc);
    push_up(&mut cell, u128::from(cost), u128::from(period), 4)?;
    Ok(cell)
}

/// The task's number.
pub(crate) fn number_cell(alloc: Global, task: u32) -> Result<Vec<u8>, AllocError>
    ensures { IfOk result (λ cell. cell.items ≡ decimal task) }
{
    let mut cell = Vec::new(alloc);
    push_wide(&mut cell, u128::from(task))?;
    Ok(cell)
}
