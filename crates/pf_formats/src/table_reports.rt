ghost use Rattle.std.specs.Prelude.{◌≡◌, IfOk};
ghost use Rattle.pf_jobs.specs.Jobs.{jobs_text};
ghost use Rattle.pf_report.specs.Events.{events_text};
ghost use Rattle.pf_report.specs.Tables.{denials_text, lags_text, misses_text};
ghost use Rattle.pf_stats.specs.Processors.{processors_text};
ghost use Rattle.pf_stats.specs.Stats.{stats_text};
ghost use Rattle.pf_vocabulary.specs.Tasks.Listed.{all_tasks};
ghost use Rattle.pf_formats.specs.Left.{text_left};
ghost use Rattle.pf_formats.specs.Report.{tables_text};

use crate::report_pieces::ReportPieces;
use crate::table_pieces::TablePieces;
use crate::tables::tables_pieces;
use pf_desk::snapshot::Snapshot;
use pf_jobs::jobs::job_pieces;
use pf_report::denials::denials_csv;
use pf_report::events::events_csv;
use pf_report::lags::lag_pieces;
use pf_report::misses::miss_pieces;
use pf_stats::processors::processors_csv;
use pf_stats::stats::stats_csv;
use pf_text::pieces::{Whole, gathered};
use pf_vocabulary::names::titles::Titles;
use pf_vocabulary::tasks::task_list::TaskList;
use std::alloc::{AllocError, Global};

/// The four tables, each after a line with its name.
pub(crate) fn tables_of<'a>(
    alloc: Global,
    snapshot: &'a Snapshot,
    titles: &'a Titles,
) -> Result<ReportPieces<'a>, AllocError>
    ensures { IfOk result (λ pieces. text_left pieces ≡ tables_text snapshot.now titles.now) }
{
    let tables = tables_pieces(alloc, snapshot, titles)?;
    Ok(ReportPieces::Table(TablePieces::Four(tables)))
}

/// The lags.
pub(crate) fn lags_of<'a>(
    alloc: Global,
    snapshot: &Snapshot,
    titles: &Titles,
) -> Result<ReportPieces<'a>, AllocError>
    ensures { IfOk result (λ pieces. text_left pieces ≡ lags_text snapshot.now titles.now) }
{
    let lags = gathered(alloc, lag_pieces(alloc, snapshot, titles)?)?;
    Ok(ReportPieces::Whole(Whole::new(lags)))
}

/// The missed windows.
pub(crate) fn misses_of<'a>(
    alloc: Global,
    snapshot: &Snapshot,
) -> Result<ReportPieces<'a>, AllocError>
    ensures { IfOk result (λ pieces. text_left pieces ≡ misses_text snapshot.now) }
{
    let misses = miss_pieces(alloc, snapshot)?;
    Ok(ReportPieces::Table(TablePieces::Misses(misses)))
}

/// The denials.
pub(crate) fn denials_of<'a>(
    alloc: Global,
    snapshot: &Snapshot,
) -> Result<ReportPieces<'a>, AllocError>
    ensures { IfOk result (λ pieces. text_left pieces ≡ denials_text snapshot.now) }
{
    let denials = denials_csv(alloc, snapshot)?;
    Ok(ReportPieces::Whole(Whole::new(denials)))
}

/// The events held.
pub(crate) fn events_of<'a>(
    alloc: Global,
    snapshot: &Snapshot,
) -> Result<ReportPieces<'a>, AllocError>
    ensures { IfOk result (λ pieces. text_left pieces ≡ events_text snapshot.now) }
{
    let events = events_csv(alloc, snapshot)?;
    Ok(ReportPieces::Whole(Whole::new(events)))
}

/// The figures of the processors.
pub(crate) fn processors_of<'a>(
    alloc: Global,
    snapshot: &Snapshot,
) -> Result<ReportPieces<'a>, AllocError>
    ensures { IfOk result (λ pieces. text_left pieces ≡ processors_text snapshot.now) }
{
    let processors = processors_csv(alloc, snapshot)?;
    Ok(ReportPieces::Whole(Whole::new(processors)))
}

/// The figures of the tasks.
pub(crate) fn stats_of<'a>(
    alloc: Global,
    snapshot: &Snapshot,
    titles: &Titles,
) -> Result<ReportPieces<'a>, AllocError>
    ensures { IfOk result (λ pieces. text_left pieces ≡ stats_text snapshot.now titles.now) }
{
    let stats = stats_csv(alloc, snapshot, titles)?;
    Ok(ReportPieces::Whole(Whole::new(stats)))
}

/// The jobs of all tasks.
pub(crate) fn jobs_of<'a>(
    alloc: Global,
    snapshot: &Snapshot,
    titles: &'a Titles,
) -> Result<ReportPieces<'a>, AllocError>
    ensures { IfOk result (λ pieces. text_left pieces ≡ jobs_text snapshot.now all_tasks titles.now) }
{
    let jobs = job_pieces(alloc, snapshot, &TaskList::all(alloc)?, titles)?;
    Ok(ReportPieces::Table(TablePieces::Jobs(jobs)))
}
