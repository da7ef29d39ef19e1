ghost use Rattle.std.specs.Prelude.{◌≡◌, ◌≤◌, ◌<◌, ◌/◌, ◌^◌, ◌++◌, ◌∷◌, All, IfOk, OnOk, map};
ghost use Rattle.std.specs.List.{flat_map};
ghost use Rattle.pf_text.specs.Columns.Columns.{columns_text};
ghost use Rattle.pf_text.specs.Columns.Decimals.{up};
ghost use Rattle.pf_convert.specs.List.Parts.{part_text};
ghost use Rattle.pf_convert.specs.Slots.{IsSlotted, IsTimed, due_of};
ghost use Rattle.pf_convert.specs.List.Times.{time_text};
ghost use Rattle.pf_convert.specs.Conversion.Report.{added_text, due_cells, has_deadline, headings, slot_headings, report_rows, slot_cells, task_row, time_cells};

use crate::list::listed::Listed;
use crate::list::parts::{Part, push_parts};
use crate::slotted::Slotted;
use crate::timed::Timed;
use pf_text::columns::columns::push_columns;
use pf_text::columns::decimals::push_up;
use pf_text::columns::row::Row;
use pf_vocabulary::names::unit::Unit;
use std::alloc::{AllocError, Global};

/// How many decimals shares have.
pub const PLACES: u32 = 4;

/// A cell of some parts.
fn parts_cell(alloc: Global, parts: &[Part<'_>]) -> Result<Vec<u8>, AllocError>
    ensures { IfOk result (λ cell. cell.items ≡ flat_map part_text parts.now) }
{
    let mut cell = Vec::new(alloc);
    push_parts(&mut cell, parts)?;
    Ok(cell)
}

/// A cell of a quotient, rounded up.
fn share_cell(alloc: Global, a: u128, b: u128) -> Result<Vec<u8>, AllocError>
    requires some { 1 ≤ b }
    requires long { b < 2 ^ 124 }
    requires low { a / b < 2 ^ 100 }
    ensures { IfOk result (λ cell. cell.items ≡ up a b PLACES) }
{
    let mut cell = Vec::new(alloc);
    push_up(&mut cell, a, b, PLACES)?;
    Ok(cell)
}

/// Whether a task has a deadline.
pub fn has_deadline(tasks: &[Listed]) -> bool
    ensures { result ≡ has_deadline tasks.now }
{
    tasks.iter().any(|task| task.times.deadline.is_some())
}

/// Adds the cell of what a task's jobs are due after, where it is shown.
fn push_due_cell(
    alloc: Global,
    row: &mut Row,
    dues: bool,
    unit: Unit,
    times: Timed,
) -> Result<(), AllocError>
    ensures { OnOk result (row.new ≡ row.old ++ due_cells dues (time_text unit (due_of times))) }
{
    if !dues {
        return Ok(());
    }
    let due = u128::from(times.due());
    row.push(parts_cell(alloc, &[Part::Time(unit, due)])?)
}

/// Adds the cells of a task's times.
fn push_time_cells(
    alloc: Global,
    row: &mut Row,
    dues: bool,
    unit: Unit,
    number: u64,
    task: &Listed,
) -> Result<(), AllocError>
    requires { IsTimed task.now.times }
    ensures { OnOk result (row.new ≡ row.old ++ time_cells dues unit number task.now) }
{
    let work = u128::from(task.times.work);
    let every = u128::from(task.times.every);
    row.push(parts_cell(alloc, &[Part::Number(number)])?)?;
    row.push(parts_cell(alloc, &[Part::Bytes(task.name.as_bytes())])?)?;
    row.push(parts_cell(alloc, &[Part::Time(unit, work)])?)?;
    row.push(parts_cell(alloc, &[Part::Time(unit, every)])?)?;
    push_due_cell(alloc, row, dues, unit, task.times)?;
    row.push(share_cell(alloc, work, every)?)
}

/// Adds the cells of a task's slots.
fn push_slot_cells(
    alloc: Global,
    row: &mut Row,
    unit: Unit,
    quantum: u64,
    times: Timed,
    slots: Slotted,
) -> Result<(), AllocError>
    requires timed { IsTimed times }
    requires slotted { IsSlotted slots }
    ensures { OnOk result (row.new ≡ row.old ++ slot_cells unit quantum times slots) }
{
    let cost = u128::from(slots.cost);
    let period = u128::from(slots.period);
    let length = u128::from(quantum);
    row.push(parts_cell(
        alloc,
        &[
            Part::Number(slots.cost),
            Part::Words("/"),
            Part::Number(slots.period),
        ],
    )?)?;
    row.push(share_cell(alloc, cost, period)?)?;
    row.push(added_cell(alloc, times, slots)?)?;
    row.push(parts_cell(alloc, &[Part::Time(unit, period * length)])?)?;
    row.push(parts_cell(alloc, &[Part::Time(unit, (period + 1) * length)])?)
}

/// The cell of what rounding and switches cost a task.
fn added_cell(alloc: Global, times: Timed, slots: Slotted) -> Result<Vec<u8>, AllocError>
    requires timed { IsTimed times }
    requires slotted { IsSlotted slots }
    ensures { IfOk result (λ cell. cell.items ≡ added_text times slots) }
{
    let every = u128::from(times.every);
    let period = u128::from(slots.period);
    let planned = u128::from(slots.cost) * every;
    let needed = u128::from(times.work) * period;
    share_cell(alloc, planned.saturating_sub(needed), period * every)
}

/// The row of a task.
fn task_row(
    alloc: Global,
    dues: bool,
    unit: Unit,
    quantum: u64,
    number: u64,
    task: &Listed,
    slots: Slotted,
) -> Result<Row, AllocError>
    requires timed { IsTimed task.now.times }
    requires slotted { IsSlotted slots }
    ensures { IfOk result (λ row. row ≡ task_row dues unit quantum number task.now slots) }
{
    let mut row = Row::new(alloc);
    push_time_cells(alloc, &mut row, dues, unit, number, task)?;
    push_slot_cells(alloc, &mut row, unit, quantum, task.times, slots)?;
    Ok(row)
}

/// The headings.
fn heading_row(alloc: Global, dues: bool) -> Result<Row, AllocError>
    ensures { IfOk result (λ row. row ≡ headings dues) }
{
    let mut row = texts_row(alloc, &["task", "name", "work", "every"])?;
    if dues {
        row.push(Vec::from_slice(alloc, b"deadline")?)?;
    }
    push_slot_headings(alloc, &mut row)?;
    Ok(row)
}

/// Adds the headings of slots.
fn push_slot_headings(alloc: Global, row: &mut Row) -> Result<(), AllocError>
    ensures { OnOk result (row.new ≡ row.old ++ slot_headings) }
{
    push_texts(
        alloc,
        row,
        &[
            "work/every",
            "weight",
            "cost/period",
            "added",
            "response",
            "from any arrival",
        ],
    )
}

/// A row of these texts.
fn texts_row(alloc: Global, texts: &[&str]) -> Result<Row, AllocError>
    ensures { IfOk result (λ row. row ≡ map (λ text. text.now) texts.now) }
{
    let mut row = Row::new(alloc);
    push_texts(alloc, &mut row, texts)?;
    Ok(row)
}

/// Adds cells of these texts.
fn push_texts(alloc: Global, row: &mut Row, texts: &[&str]) -> Result<(), AllocError>
    ensures { OnOk result (row.new ≡ row.old ++ map (λ text. text.now) texts.now) }
{
    for text in texts {
        row.push(Vec::from_slice(alloc, text.as_bytes())?)?;
    }
    Ok(())
}

/// Adds the table of tasks and their slots.
///
/// # Errors
///
/// Where memory is refused: a front of it was added.
pub fn push_table(
    alloc: Global,
    text: &mut Vec<u8>,
    unit: Unit,
    quantum: u64,
    tasks: &[Listed],
    slots: &[Slotted],
) -> Result<(), AllocError>
    requires timed { All (λ t. IsTimed t.times) tasks.now }
    requires slotted { All IsSlotted slots.now }
    ensures { OnOk result (text.new.items ≡ text.old.items ++ columns_text (headings (has_deadline tasks.now) ∷ report_rows (has_deadline tasks.now) unit quantum 1 tasks.now slots.now)) }
{
    let dues = has_deadline(tasks);
    let mut rows = Vec::new(alloc);
    rows.push(heading_row(alloc, dues)?)?;
    for place in 0..tasks.len().min(slots.len()) {
        let row = task_row(
            alloc,
            dues,
            unit,
            quantum,
            place as u64 + 1,
            &tasks[place],
            slots[place],
        )?;
        rows.push(row)?;
    }
    push_columns(alloc, text, &rows)
}
