ghost use Rattle.std.specs.Prelude.{◌≡◌, [], IfOk, OnOk};
ghost use Rattle.std.specs.Fmt.{decimal, signed_decimal};
ghost use Rattle.std.specs.Option.{option_map, option_map_or};
ghost use Rattle.pf_text.specs.Page.{table_text, with_field, with_record};
ghost use Rattle.pf_diff.specs.Written.{with_records};
ghost use Rattle.pf_diff.specs.Summary.{cells_record, count_record, count_records, first_miss_records, lag_record, maybe_record, move_records, settings_records, summary_records, summary_text, worst_records};

use crate::cells_changed::cells_changed;
use crate::diff::head_text;
use crate::summary::{Summary, sum_up};
use pf_desk::snapshot::Snapshot;
use pf_tally::figures::Figures;
use pf_tally::miss::Miss;
use pf_text::table::Table;
use std::alloc::{AllocError, Global};

/// Adds the record of a figure that both have.
fn push_count(table: &mut Table, name: &str, before: u64, after: u64) -> Result<(), AllocError>
    requires { table.old.fields ≡ [] }
    ensures { OnOk result (table.new ≡ with_record table.old (count_record name.now before after)) }
{
    table.show(name)?;
    table.show_number(before)?;
    table.show_number(after)?;
    table.end_record()
}

/// Adds the record of a sum.
fn push_sum(table: &mut Table, name: &str, before: u128, after: u128) -> Result<(), AllocError>
    requires { table.old.fields ≡ [] }
    ensures { OnOk result (table.new ≡ with_record table.old (count_record name.now before after)) }
{
    table.show(name)?;
    table.show(before)?;
    table.show(after)?;
    table.end_record()
}

/// Adds the record of a number that each may have: empty where there is none.
fn push_maybe(
    table: &mut Table,
    name: &str,
    before: Option<u64>,
    after: Option<u64>,
) -> Result<(), AllocError>
    requires { table.old.fields ≡ [] }
    ensures { OnOk result (table.new ≡ with_record table.old (maybe_record name.now before after)) }
{
    table.show(name)?;
    show_maybe(table, before)?;
    show_maybe(table, after)?;
    table.end_record()
}

/// Adds the field of a number, which is empty where there is none.
fn show_maybe(table: &mut Table, number: Option<u64>) -> Result<(), AllocError>
    ensures { OnOk result (table.new ≡ with_field table.old (option_map_or decimal number [])) }
{
    match number {
        Some(number) => table.show_number(number),
        None => table.show_nothing(),
    }
}

/// Adds the record of a lag that each may have.
fn push_lag(
    table: &mut Table,
    name: &str,
    before: Option<i64>,
    after: Option<i64>,
) -> Result<(), AllocError>
    requires { table.old.fields ≡ [] }
    ensures { OnOk result (table.new ≡ with_record table.old (lag_record name.now before after)) }
{
    table.show(name)?;
    show_lag(table, before)?;
    show_lag(table, after)?;
    table.end_record()
}

/// Adds the field of a lag, which is empty where there is none.
fn show_lag(table: &mut Table, lag: Option<i64>) -> Result<(), AllocError>
    ensures { OnOk result (table.new ≡ with_field table.old (option_map_or signed_decimal lag [])) }
{
    match lag {
        Some(lag) => table.show(lag),
        None => table.show_nothing(),
    }
}

/// Adds the records of the settings, and of the slots.
fn push_settings(table: &mut Table, before: &Summary, after: &Summary) -> Result<(), AllocError>
    requires { table.old.fields ≡ [] }
    ensures { OnOk result (table.new ≡ with_records table.old (settings_records before.now after.now)) }
{
    push_count(table, "processors", before.processors, after.processors)?;
    push_count(table, "base", before.base, after.base)?;
    push_count(table, "cap", before.cap, after.cap)?;
    push_count(table, "slots", before.slots, after.slots)
}

/// Adds the records of the counts.
fn push_counts(table: &mut Table, before: &Summary, after: &Summary) -> Result<(), AllocError>
    requires { table.old.fields ≡ [] }
    ensures { OnOk result (table.new ≡ with_records table.old (count_records before.now after.now)) }
{
    push_count(table, "tasks", before.tasks, after.tasks)?;
    push_count(table, "denials", before.denials, after.denials)?;
    push_count(table, "misses", before.misses, after.misses)
}

/// The task of a missed window.
fn task_of(miss: Option<Miss>) -> Option<u64>
    ensures { result ≡ option_map (λ m. m.task) miss }
{
    Some(u64::from(miss?.task))
}

/// The subtask of a missed window.
fn sub_of(miss: Option<Miss>) -> Option<u64>
    ensures { result ≡ option_map (λ m. m.sub) miss }
{
    Some(u64::from(miss?.sub))
}

/// The deadline of a missed window.
fn deadline_of(miss: Option<Miss>) -> Option<u64>
    ensures { result ≡ option_map (λ m. m.deadline) miss }
{
    Some(miss?.deadline)
}

/// Adds the records of the first missed windows.
fn push_first_miss(
    table: &mut Table,
    before: Option<Miss>,
    after: Option<Miss>,
) -> Result<(), AllocError>
    requires { table.old.fields ≡ [] }
    ensures { OnOk result (table.new ≡ with_records table.old (first_miss_records before after)) }
{
    push_maybe(table, "first_miss_task", task_of(before), task_of(after))?;
    push_maybe(table, "first_miss_sub", sub_of(before), sub_of(after))?;
    push_maybe(
        table,
        "first_miss_deadline",
        deadline_of(before),
        deadline_of(after),
    )
}

/// The greatest lag of a task's figures, times its period.
fn lag_of(figures: Option<Figures>) -> Option<i64>
    ensures { result ≡ option_map (λ f. f.lag.greatest) figures }
{
    Some(figures?.lag.greatest)
}

/// The period of a task's figures.
fn period_of(figures: Option<Figures>) -> Option<u64>
    ensures { result ≡ option_map (λ f. f.period) figures }
{
    Some(figures?.period)
}

/// The task of some figures.
fn number_of(figures: Option<Figures>) -> Option<u64>
    ensures { result ≡ option_map (λ f. f.task) figures }
{
    Some(u64::from(figures?.task))
}

/// Adds the records of the worst lags.
fn push_worst(
    table: &mut Table,
    before: Option<Figures>,
    after: Option<Figures>,
) -> Result<(), AllocError>
    requires { table.old.fields ≡ [] }
    ensures { OnOk result (table.new ≡ with_records table.old (worst_records before after)) }
{
    push_lag(table, "worst_lag", lag_of(before), lag_of(after))?;
    push_maybe(
        table,
        "worst_lag_period",
        period_of(before),
        period_of(after),
    )?;
    push_maybe(table, "worst_lag_task", number_of(before), number_of(after))
}

/// Adds the record of how many cells of the schedule differ.
fn push_cells(table: &mut Table, cells: u128) -> Result<(), AllocError>
    requires { table.old.fields ≡ [] }
    ensures { OnOk result (table.new ≡ with_record table.old (cells_record cells)) }
{
    table.show("cells")?;
    table.show_nothing()?;
    table.show(cells)?;
    table.end_record()
}

/// Adds the records of the moves, and of the cells that differ.
fn push_moves(
    table: &mut Table,
    before: &Summary,
    after: &Summary,
    cells: u128,
) -> Result<(), AllocError>
    requires { table.old.fields ≡ [] }
    ensures { OnOk result (table.new ≡ with_records table.old (move_records before.now after.now cells)) }
{
    push_sum(table, "preemptions", before.preemptions, after.preemptions)?;
    push_sum(table, "migrations", before.migrations, after.migrations)?;
    push_cells(table, cells)
}

/// Adds all records of two summaries, where so many cells of the schedule differ.
fn push_summaries(
    table: &mut Table,
    before: &Summary,
    after: &Summary,
    cells: u128,
) -> Result<(), AllocError>
    requires { table.old.fields ≡ [] }
    ensures { OnOk result (table.new ≡ with_records table.old (summary_records before.now after.now cells)) }
{
    push_settings(table, before, after)?;
    push_counts(table, before, after)?;
    push_first_miss(table, before.first_miss, after.first_miss)?;
    push_worst(table, before.worst, after.worst)?;
    push_moves(table, before, after, cells)
}

/// All records of two summaries, where so many cells of the schedule differ, as text.
fn records_text(
    alloc: Global,
    before: &Summary,
    after: &Summary,
    cells: u128,
) -> Result<Vec<u8>, AllocError>
    ensures { IfOk result (λ text. text.items ≡ table_text (summary_records before.now after.now cells)) }
{
    let mut table = Table::new(alloc);
    push_summaries(&mut table, before, after, cells)?;
    table.finish()
}

/// What two snapshots come to, side by side, as a table after its title: the settings, the slots, the tasks, the denials and
/// the misses, the first missed window, the worst lag, preemptions and migrations, and how many cells of the schedule differ,
/// of the slots and on the processors that both have. What there is none of is empty.
///
/// # Errors
///
/// Where memory is refused.
pub fn summary_text(
    alloc: Global,
    before: &Snapshot,
    after: &Snapshot,
) -> Result<Vec<u8>, AllocError>
    ensures { IfOk result (λ text. text.items ≡ summary_text before.now after.now) }
{
    let first = sum_up(before)?;
    let second = sum_up(after)?;
    let cells = cells_changed(before, after);
    let records = records_text(alloc, &first, &second, cells)?;
    let mut text = head_text(alloc, "summary", &["figure", "before", "after"])?;
    text.extend_from_slice(&records)?;
    Ok(text)
}
