ghost use Rattle.std.specs.Prelude.{◌≡◌, ◌∷◌, ◌++◌, [], All, IfOk, OnOk, map, option_map, codes};
ghost use Rattle.pf_text.specs.Columns.Columns.{columns_text};
ghost use Rattle.pf_text.specs.Columns.Decimals.{up};
ghost use Rattle.pf_convert.specs.Slots.{due_of};
ghost use Rattle.pf_convert.specs.declared.fit.short.Side.TheVariants.{Up, Down};
ghost use Rattle.pf_convert.specs.Fit.Short.{short_text};
ghost use Rattle.pf_convert.specs.Fit.Shown.{IsShown, IsShownTask, least_time_of};
ghost use Rattle.pf_convert.specs.Fit.Table.{done_time, due_cell, has_long_time, has_long_times, is_long_in, lower_headings, rounded_words, table_front, table_rows, table_text, table_with, task_row, time_cell, upper_headings};

use crate::conversion::report::has_deadline;
use crate::fit::headline::PLACES;
use crate::fit::short::{Side, is_long, short_cell};
use crate::fit::shown::Shown;
use crate::fit::shown_task::ShownTask;
use crate::list::parts::{Part, push_parts};
use pf_text::columns::columns::push_columns;
use pf_text::columns::decimals::push_up;
use pf_text::columns::row::Row;
use pf_vocabulary::names::unit::Unit;
use std::alloc::{AllocError, Global};

/// Whether there is a time, and it is long.
fn is_long_in(unit: Unit, time: Option<u128>) -> bool
    ensures { result ≡ is_long_in unit time }
{
    match time {
        Some(time) => is_long(unit, time),
        None => false,
    }
}

/// Within how long a job of a task is done, where the plan fits.
fn done_time(shown: &Shown<'_, '_>, task: ShownTask<'_>) -> Option<u128>
    ensures { result ≡ done_time shown.now task.entry }
{
    if shown.is_fit() {
        Some(shown.response(task))
    } else {
        None
    }
}

/// The most work of a task.
fn most_work(task: ShownTask<'_>) -> Option<u128>
    ensures { result ≡ task.entry.margin.most }
{
    match task.margin.most {
        Some(work) => Some(u128::from(work)),
        None => None,
    }
}

/// Whether a time that is shown of a task is rounded.
fn has_long_time(shown: &Shown<'_, '_>, dues: bool, task: ShownTask<'_>) -> bool
    ensures { result ≡ has_long_time shown.now dues task.entry }
{
    let unit = shown.file.unit;
    is_long(unit, u128::from(task.times.work))
        || is_long(unit, u128::from(task.times.every))
        || dues && is_long(unit, u128::from(task.times.due()))
        || is_long_in(unit, done_time(shown, task))
        || is_long_in(unit, most_work(task))
        || is_long_in(unit, shown.least_time(task))
}

/// Whether one of the tasks has such a time.
#[tactic(auto, unfolding(crate::specs::Fit::Table::has_long_times))]
fn has_long_times(shown: &Shown<'_, '_>, dues: bool) -> bool
    ensures { result ≡ has_long_times shown.now dues shown.now.tasks.now }
{
    for task in shown.tasks {
        if has_long_time(shown, dues, *task) {
            return true;
        }
    }
    false
}

/// What is told of rounded times.
fn rounded_words(long: bool) -> &'static str
    ensures { result.now ≡ rounded_words long }
{
    if long {
        ", long ones rounded to the safe side\n"
    } else {
        "\n"
    }
}

/// Adds the table: the unit of its times, and a line for each task.
///
/// # Errors
///
/// Where memory is refused: a front of it was added.
pub fn push_table(
    alloc: Global,
    text: &mut Vec<u8>,
    shown: &Shown<'_, '_>,
) -> Result<(), AllocError>
    requires { IsShown shown.now }
    ensures { OnOk result (text.new.items ≡ text.old.items ++ table_text shown.now) }
{
    let dues = has_deadline(shown.listed);
    let rows = table_rows(alloc, shown, dues)?;
    push_front(text, shown, dues)?;
    push_columns(alloc, text, &rows)?;
    text.extend_from_slice(b"\n")
}

/// Adds what stands before the table.
fn push_front(text: &mut Vec<u8>, shown: &Shown<'_, '_>, dues: bool) -> Result<(), AllocError>
    ensures { OnOk result (text.new.items ≡ text.old.items ++ table_front shown.now dues) }
{
    push_parts(
        text,
        &[
            Part::Words("\ntimes in "),
            Part::Words(shown.file.unit.word()),
            Part::Words(rounded_words(has_long_times(shown, dues))),
        ],
    )
}

/// The rows of the table.
fn table_rows(alloc: Global, shown: &Shown<'_, '_>, dues: bool) -> Result<Vec<Row>, AllocError>
    requires { IsShown shown.now }
    ensures { IfOk result (λ rows. rows.items ≡ table_rows shown.now dues) }
{
    let mut rows = Vec::new(alloc);
    rows.push(upper_headings(alloc, dues)?)?;
    rows.push(lower_headings(alloc, dues)?)?;
    for task in shown.tasks {
        rows.push(task_row(alloc, shown, dues, *task)?)?;
    }
    Ok(rows)
}

/// Adds a cell of these words.
fn push_words(alloc: Global, row: &mut Row, words: &str) -> Result<(), AllocError>
    ensures { OnOk result (row.new ≡ row.old ++ words.now ∷ []) }
{
    row.push(Vec::from_slice(alloc, words.as_bytes())?)
}

/// Adds cells of these words.
fn push_all(alloc: Global, row: &mut Row, all: &[&str]) -> Result<(), AllocError>
    ensures { OnOk result (row.new ≡ row.old ++ map (λ words. words.now) all.now) }
{
    for words in all {
        push_words(alloc, row, *words)?;
    }
    Ok(())
}

/// The first line of headings.
fn upper_headings(alloc: Global, dues: bool) -> Result<Row, AllocError>
    ensures { IfOk result (λ row. row ≡ upper_headings dues) }
{
    let mut row = Row::new(alloc);
    if dues {
        push_all(
            alloc,
            &mut row,
            &["", "", "", "due", "", "done", "work", "due"],
        )?;
    } else {
        push_all(alloc, &mut row, &["", "", "", "", "done", "work", "every"])?;
    }
    Ok(row)
}

/// The second one.
fn lower_headings(alloc: Global, dues: bool) -> Result<Row, AllocError>
    ensures { IfOk result (λ row. row ≡ lower_headings dues) }
{
    let mut row = Row::new(alloc);
    if dues {
        push_all(
            alloc,
            &mut row,
            &[
                "task", "work", "every", "within", "share", "within", "at most", "at least",
            ],
        )?;
    } else {
        push_all(
            alloc,
            &mut row,
            &[
                "task", "work", "every", "share", "within", "at most", "at least",
            ],
        )?;
    }
    Ok(row)
}

/// The line of a task.
fn task_row(
    alloc: Global,
    shown: &Shown<'_, '_>,
    dues: bool,
    task: ShownTask<'_>,
) -> Result<Row, AllocError>
    requires { IsShownTask task }
    ensures { IfOk result (λ row. row ≡ task_row shown.now dues task.entry) }
{
    let mut row = Row::new(alloc);
    push_told(alloc, &mut row, shown, dues, task)?;
    push_planned(alloc, &mut row, shown, task)?;
    Ok(row)
}

/// Adds the cells of a task's name and times.
fn push_told(
    alloc: Global,
    row: &mut Row,
    shown: &Shown<'_, '_>,
    dues: bool,
    task: ShownTask<'_>,
) -> Result<(), AllocError>
    ensures { OnOk result (row.new ≡ row.old ++ task.entry.name.now ∷ short_text shown.now.file.now.unit Up task.entry.times.work
        ∷ short_text shown.now.file.now.unit Down task.entry.times.every ∷ due_cell shown.now dues task.entry) }
{
    let unit = shown.file.unit;
    row.push(Vec::from_slice(alloc, task.name)?)?;
    row.push(short_cell(alloc, unit, Side::Up, u128::from(task.times.work))?)?;
    row.push(short_cell(alloc, unit, Side::Down, u128::from(task.times.every))?)?;
    if dues {
        row.push(short_cell(alloc, unit, Side::Down, u128::from(task.times.due()))?)?;
    }
    Ok(())
}

/// Adds the cells of what it asks for, and of its margins.
fn push_planned(
    alloc: Global,
    row: &mut Row,
    shown: &Shown<'_, '_>,
    task: ShownTask<'_>,
) -> Result<(), AllocError>
    requires { IsShownTask task }
    ensures { OnOk result (row.new ≡ row.old ++ up task.entry.slots.cost task.entry.slots.period 4 ∷ time_cell shown.now.file.now.unit Up (done_time shown.now task.entry)
        ∷ time_cell shown.now.file.now.unit Down task.entry.margin.most ∷ time_cell shown.now.file.now.unit Up (least_time_of shown.now task.entry) ∷ []) }
{
    let unit = shown.file.unit;
    row.push(share_cell(alloc, task)?)?;
    row.push(time_cell(alloc, unit, Side::Up, done_time(shown, task))?)?;
    row.push(time_cell(alloc, unit, Side::Down, most_work(task))?)?;
    row.push(time_cell(alloc, unit, Side::Up, shown.least_time(task))?)
}

/// The cell of a time, `-` where there is none.
fn time_cell(
    alloc: Global,
    unit: Unit,
    side: Side,
    time: Option<u128>,
) -> Result<Vec<u8>, AllocError>
    ensures { IfOk result (λ cell. cell.items ≡ time_cell unit side time) }
{
    match time {
        Some(time) => short_cell(alloc, unit, side, time),
        None => Vec::from_slice(alloc, b"-"),
    }
}

/// The cell of the part of a processor that a task asks for.
fn share_cell(alloc: Global, task: ShownTask<'_>) -> Result<Vec<u8>, AllocError>
    requires { IsShownTask task }
    ensures { IfOk result (λ cell. cell.items ≡ up task.entry.slots.cost task.entry.slots.period 4) }
{
    let cost = u128::from(task.slots.cost);
    let period = u128::from(task.slots.period);
    let mut cell = Vec::new(alloc);
    push_up(&mut cell, cost, period, PLACES)?;
    Ok(cell)
}
