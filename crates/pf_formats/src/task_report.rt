ghost use Rattle.std.specs.Prelude.{◌≡◌, ◌≤◌, [], true, None, IfOk};
ghost use Rattle.pf_chart.specs.Chart.{task_chart_text_of};
ghost use Rattle.pf_jobs.specs.Jobs.{jobs_text};
ghost use Rattle.pf_vocabulary.specs.declared.look.wrap.TheConstants.{MOST_SLOTS};
ghost use Rattle.pf_vocabulary.specs.Options.Formats.{range_fault};
ghost use Rattle.pf_vocabulary.specs.Options.Ranges.{end_of, first_of, is_within, slots_of};
ghost use Rattle.pf_picture.specs.Picture.{task_picture_text_of};
ghost use Rattle.pf_vocabulary.specs.TaskLines.Lines.{listed_text};
ghost use Rattle.pf_windows.specs.Windows.{windows_text};
ghost use Rattle.pf_formats.specs.Report.{report_text};
ghost use Rattle.pf_formats.specs.TaskLeft.{task_text_left};
ghost use Rattle.pf_formats.specs.TaskReport.{task_report_text};

use crate::drawing_pieces::DrawingPieces;
use crate::report::report_pieces;
use crate::report_pieces::ReportPieces;
use crate::table_pieces::TablePieces;
use crate::task_pieces::TaskPieces;
use pf_chart::chart::task_chart_pieces;
use pf_desk::snapshot::Snapshot;
use pf_jobs::jobs::job_pieces;
use pf_picture::picture::task_picture_pieces;
use pf_text::pieces::Whole;
use pf_vocabulary::look::look::Look;
use pf_vocabulary::names::titles::Titles;
use pf_vocabulary::options::format::Format;
use pf_vocabulary::options::slot_range::SlotRange;
use pf_vocabulary::task_lines::listed_lines::ListedLines;
use pf_vocabulary::tasks::task_list::TaskList;
use pf_windows::windows::window_pieces;
use std::alloc::{AllocError, Global};

/// What a format shows of the tasks of a list alone, in pieces: of `windows`, `jobs`, `quanta`, `stats`, `lags`, `misses`, `chart`
/// and `svg`; of any other format nothing. The format can be shown of the slots stepped.
///
/// # Errors
///
/// Where memory is refused.
#[tactic(auto, unfolding(crate::specs::Report::report_text, crate::specs::TaskReport::task_report_text))]
pub fn task_report_pieces<'a>(
    alloc: Global,
    snapshot: &'a Snapshot,
    format: Format,
    titles: &'a Titles,
    tasks: TaskList,
) -> Result<TaskPieces<'a>, AllocError>
    requires { range_fault format snapshot.now.state.now ≡ None }
    ensures { IfOk result (λ pieces. task_text_left pieces ≡ task_report_text format snapshot.now titles.now tasks) }
{
    match format {
        Format::Windows(range) => windows_of(alloc, snapshot, titles, &tasks, range),
        Format::Jobs => jobs_of(alloc, snapshot, titles, &tasks),
        Format::Quanta(_) => lines_of(alloc, snapshot, format, titles, tasks, 2),
        Format::Stats | Format::Lags | Format::Misses => {
            lines_of(alloc, snapshot, format, titles, tasks, 0)
        }
        Format::Chart(range) => chart_of(alloc, snapshot, titles, &tasks, range),
        Format::Svg(range, look) => picture_of(alloc, snapshot, titles, &tasks, range, &look),
        _ => {
            let nothing = Whole::new(Vec::new(alloc));
            Ok(TaskPieces::Made(ReportPieces::Whole(nothing)))
        }
    }
}

/// The windows of the tasks of a list in a range of slots.
fn windows_of<'a>(
    alloc: Global,
    snapshot: &Snapshot,
    titles: &'a Titles,
    tasks: &TaskList,
    range: SlotRange,
) -> Result<TaskPieces<'a>, AllocError>
    ensures { IfOk result
        (λ pieces. task_text_left pieces ≡ windows_text snapshot.now tasks.now titles.now (first_of range) (end_of range snapshot.now.state.now)) }
{
    let to = range.end(snapshot.now());
    let windows = window_pieces(alloc, snapshot, tasks, titles, range.first(), to)?;
    let table = TablePieces::Windows(windows);
    Ok(TaskPieces::Made(ReportPieces::Table(table)))
}

/// The jobs of the tasks of a list.
fn jobs_of<'a>(
    alloc: Global,
    snapshot: &Snapshot,
    titles: &'a Titles,
    tasks: &TaskList,
) -> Result<TaskPieces<'a>, AllocError>
    ensures { IfOk result (λ pieces. task_text_left pieces ≡ jobs_text snapshot.now tasks.now titles.now) }
{
    let jobs = job_pieces(alloc, snapshot, tasks, titles)?;
    let table = TablePieces::Jobs(jobs);
    Ok(TaskPieces::Made(ReportPieces::Table(table)))
}

/// The lines of a format's table that are of the tasks of a list: this column, counted from 0, has the task.
fn lines_of<'a>(
    alloc: Global,
    snapshot: &'a Snapshot,
    format: Format,
    titles: &'a Titles,
    tasks: TaskList,
    column: usize,
) -> Result<TaskPieces<'a>, AllocError>
    requires { range_fault format snapshot.now.state.now ≡ None }
    ensures { IfOk result (λ pieces. task_text_left pieces ≡ listed_text tasks column (report_text format 0 snapshot.now titles.now [])) }
{
    let table = report_pieces(alloc, snapshot, 0, format, titles, Vec::new(alloc))?;
    Ok(TaskPieces::Listed(ListedLines::new(alloc, table, tasks, column)))
}

/// The chart of the tasks of a list in a range of slots.
fn chart_of<'a>(
    alloc: Global,
    snapshot: &'a Snapshot,
    titles: &'a Titles,
    tasks: &TaskList,
    range: SlotRange,
) -> Result<TaskPieces<'a>, AllocError>
    requires { is_within range snapshot.now.state.now ≡ true }
    ensures { IfOk result
        (λ pieces. task_text_left pieces ≡ task_chart_text_of snapshot.now titles.now tasks.now (first_of range) (end_of range snapshot.now.state.now)) }
{
    let to = range.end(snapshot.now());
    let chart = task_chart_pieces(alloc, snapshot, titles, tasks, range.first(), to)?;
    let drawing = DrawingPieces::Chart(chart);
    Ok(TaskPieces::Made(ReportPieces::Drawing(drawing)))
}

/// The picture of the tasks of a list in a range of slots.
fn picture_of<'a>(
    alloc: Global,
    snapshot: &'a Snapshot,
    titles: &Titles,
    tasks: &TaskList,
    range: SlotRange,
    look: &Look,
) -> Result<TaskPieces<'a>, AllocError>
    requires within { is_within range snapshot.now.state.now ≡ true }
    requires short { slots_of range snapshot.now.state.now ≤ MOST_SLOTS }
    ensures { IfOk result
        (λ pieces. task_text_left pieces ≡ task_picture_text_of snapshot.now titles.now tasks.now (first_of range) (end_of range snapshot.now.state.now) look.now) }
{
    let to = range.end(snapshot.now());
    let picture = task_picture_pieces(alloc, snapshot, titles, tasks, range.first(), to, look)?;
    let drawing = DrawingPieces::Picture(picture);
    Ok(TaskPieces::Made(ReportPieces::Drawing(drawing)))
}
