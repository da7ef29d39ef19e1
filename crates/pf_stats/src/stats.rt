ghost use Rattle.std.specs.Prelude.{◌≡◌, [], IfOk, OnOk};
ghost use Rattle.pf_text.specs.Page.{with_field, with_record};
ghost use Rattle.pf_stats.specs.Stats.{figures_record, greatest_field, least_field, named_figures_record, stats_text, task_fields, time_fields, work_fields};

use pf_desk::snapshot::Snapshot;
use pf_tally::extremes::Extremes;
use pf_tally::figures::Figures;
use pf_text::table::Table;
use pf_vocabulary::name_column::column::{push_heading, show_name};
use pf_vocabulary::names::titles::Titles;
use std::alloc::{AllocError, Global};

/// Adds the field of the least, which is empty where there is none.
fn show_least(table: &mut Table, extremes: Option<Extremes>) -> Result<(), AllocError>
    ensures { OnOk result (table.new ≡ with_field table.old (least_field extremes)) }
{
    match extremes {
        Some(extremes) => table.show(extremes.least),
        None => table.show_nothing(),
    }
}

/// Adds the field of the greatest, which is empty where there is none.
fn show_greatest(table: &mut Table, extremes: Option<Extremes>) -> Result<(), AllocError>
    ensures { OnOk result (table.new ≡ with_field table.old (greatest_field extremes)) }
{
    match extremes {
        Some(extremes) => table.show(extremes.greatest),
        None => table.show_nothing(),
    }
}

/// Adds the fields of the task and of its quanta.
fn show_task(table: &mut Table, figures: Figures) -> Result<(), AllocError>
    requires { table.old.fields ≡ [] }
    ensures { OnOk result (table.new ≡ record { text = table.old.text; fields = task_fields figures }) }
{
    table.show_number(u64::from(figures.task))?;
    table.show_number(figures.cost)?;
    table.show_number(figures.period)?;
    table.show_number(figures.quanta)
}

/// Adds the fields of how it moved, and of its jobs.
fn show_work(table: &mut Table, figures: Figures) -> Result<(), AllocError>
    requires { table.old.fields ≡ task_fields figures }
    ensures { OnOk result (table.new ≡ record { text = table.old.text; fields = work_fields figures }) }
{
    table.show_number(figures.migrations)?;
    table.show_number(figures.preemptions)?;
    table.show_number(figures.jobs)
}

/// Adds the fields of how soon its jobs were done, and how late it was.
fn show_time(table: &mut Table, figures: Figures) -> Result<(), AllocError>
    requires { table.old.fields ≡ work_fields figures }
    ensures { OnOk result (table.new ≡ record { text = table.old.text; fields = time_fields figures }) }
{
    show_least(table, figures.response)?;
    show_greatest(table, figures.response)?;
    table.show_number(figures.missed)?;
    table.show_number(figures.tardiness)
}

/// Adds the fields of its lag.
fn show_lag(table: &mut Table, figures: Figures) -> Result<(), AllocError>
    requires { table.old.fields ≡ time_fields figures }
    ensures { OnOk result (table.new ≡ record { text = table.old.text; fields = figures_record figures }) }
{
    show_least(table, Some(figures.lag))?;
    show_greatest(table, Some(figures.lag))
}

/// Adds the record of a task.
fn push_figures(table: &mut Table, figures: Figures, titles: &Titles) -> Result<(), AllocError>
    requires { table.old.fields ≡ [] }
    ensures { OnOk result (table.new ≡ with_record table.old (named_figures_record titles.now figures)) }
{
    show_task(table, figures)?;
    show_work(table, figures)?;
    show_time(table, figures)?;
    show_lag(table, figures)?;
    show_name(table, titles, u64::from(figures.task))?;
    table.end_record()
}

/// What every simulator tells of each task admitted in a slot below now, as a table, by task number: its weight, the
/// quanta that it received, its migrations and preemptions, the jobs that were done, their least and greatest response,
/// the missed windows, the greatest tardiness, the least and the greatest lag; in a plan its name, or nothing where it has
/// none.
///
/// # Errors
///
/// Where memory is refused.
pub fn stats_csv(alloc: Global, snapshot: &Snapshot, titles: &Titles) -> Result<Vec<u8>, AllocError>
    ensures { IfOk result (λ text. text.items ≡ stats_text snapshot.now titles.now) }
{
    let mut table = Table::new(alloc);
    let texts = [
        "task",
        "cost",
        "period",
        "quanta",
        "migrations",
        "preemptions",
        "jobs",
        "response_min",
        "response_max",
        "missed",
        "tardiness_max",
        "lag_min",
        "lag_max",
    ];
    push_heading(&mut table, &texts, titles)?;
    for figures in &snapshot.figures()? {
        push_figures(&mut table, *figures, titles)?;
    }
    table.finish()
}
