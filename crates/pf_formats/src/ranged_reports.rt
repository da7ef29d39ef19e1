ghost use Rattle.std.specs.Prelude.{◌≡◌, ◌≤◌, true, IfOk};
ghost use Rattle.pf_chart.specs.Chart.{chart_text_of};
ghost use Rattle.pf_jobs.specs.Load.{load_text};
ghost use Rattle.pf_vocabulary.specs.declared.look.wrap.TheConstants.{MOST_SLOTS};
ghost use Rattle.pf_vocabulary.specs.Options.Ranges.{end_of, first_of, is_within, slots_of};
ghost use Rattle.pf_picture.specs.Picture.{picture_text_of};
ghost use Rattle.pf_report.specs.Part.{schedule_part_text};
ghost use Rattle.pf_report.specs.Quanta.{quanta_text};
ghost use Rattle.pf_vocabulary.specs.Tasks.Listed.{all_tasks};
ghost use Rattle.pf_windows.specs.Windows.{windows_text};
ghost use Rattle.pf_formats.specs.Left.{text_left};

use crate::drawing_pieces::DrawingPieces;
use crate::report_pieces::ReportPieces;
use crate::table_pieces::TablePieces;
use pf_chart::chart::chart_pieces;
use pf_desk::snapshot::Snapshot;
use pf_jobs::load::load_pieces;
use pf_picture::picture::picture_pieces;
use pf_report::quanta::quanta_pieces;
use pf_report::schedule_part::schedule_part_pieces;
use pf_vocabulary::look::look::Look;
use pf_vocabulary::names::titles::Titles;
use pf_vocabulary::options::slot_range::SlotRange;
use pf_vocabulary::tasks::task_list::TaskList;
use pf_windows::windows::window_pieces;
use std::alloc::{AllocError, Global};

/// The schedule of a range of slots.
pub(crate) fn schedule_of(
    alloc: Global,
    snapshot: &Snapshot,
    range: SlotRange,
) -> Result<ReportPieces<'_>, AllocError>
    requires { is_within range snapshot.now.state.now ≡ true }
    ensures { IfOk result
        (λ pieces. text_left pieces ≡ schedule_part_text snapshot.now (first_of range) (end_of range snapshot.now.state.now)) }
{
    let to = range.end(snapshot.now());
    let part = schedule_part_pieces(alloc, snapshot, range.first(), to)?;
    Ok(ReportPieces::Table(TablePieces::Schedule(part)))
}

/// The chart of a range of slots.
pub(crate) fn chart_of<'a>(
    alloc: Global,
    snapshot: &'a Snapshot,
    titles: &'a Titles,
    range: SlotRange,
) -> Result<ReportPieces<'a>, AllocError>
    requires { is_within range snapshot.now.state.now ≡ true }
    ensures { IfOk result
        (λ pieces. text_left pieces ≡ chart_text_of snapshot.now titles.now (first_of range) (end_of range snapshot.now.state.now)) }
{
    let to = range.end(snapshot.now());
    let chart = chart_pieces(alloc, snapshot, titles, range.first(), to)?;
    Ok(ReportPieces::Drawing(DrawingPieces::Chart(chart)))
}

/// The picture of a range of slots.
pub(crate) fn picture_of<'a>(
    alloc: Global,
    snapshot: &'a Snapshot,
    titles: &Titles,
    range: SlotRange,
    look: &Look,
) -> Result<ReportPieces<'a>, AllocError>
    requires within { is_within range snapshot.now.state.now ≡ true }
    requires short { slots_of range snapshot.now.state.now ≤ MOST_SLOTS }
    ensures { IfOk result
        (λ pieces. text_left pieces ≡ picture_text_of snapshot.now titles.now (first_of range) (end_of range snapshot.now.state.now) look.now) }
{
    let to = range.end(snapshot.now());
    let picture = picture_pieces(alloc, snapshot, titles, range.first(), to, look)?;
    Ok(ReportPieces::Drawing(DrawingPieces::Picture(picture)))
}

/// The quanta of a range of slots.
pub(crate) fn quanta_of(
    alloc: Global,
    snapshot: &Snapshot,
    range: SlotRange,
) -> Result<ReportPieces<'_>, AllocError>
    requires { is_within range snapshot.now.state.now ≡ true }
    ensures { IfOk result
        (λ pieces. text_left pieces ≡ quanta_text snapshot.now (first_of range) (end_of range snapshot.now.state.now)) }
{
    let to = range.end(snapshot.now());
    let quanta = quanta_pieces(alloc, snapshot, range.first(), to)?;
    Ok(ReportPieces::Table(TablePieces::Quanta(quanta)))
}

/// The windows of all tasks in a range of slots.
pub(crate) fn windows_of<'a>(
    alloc: Global,
    snapshot: &Snapshot,
    titles: &'a Titles,
    range: SlotRange,
) -> Result<ReportPieces<'a>, AllocError>
    ensures { IfOk result
        (λ pieces. text_left pieces ≡ windows_text snapshot.now all_tasks titles.now (first_of range) (end_of range snapshot.now.state.now)) }
{
    let tasks = TaskList::all(alloc)?;
    let to = range.end(snapshot.now());
    let windows = window_pieces(alloc, snapshot, &tasks, titles, range.first(), to)?;
    Ok(ReportPieces::Table(TablePieces::Windows(windows)))
}

/// Load and room of a range of slots.
pub(crate) fn load_of<'a>(
    alloc: Global,
    snapshot: &Snapshot,
    range: SlotRange,
) -> Result<ReportPieces<'a>, AllocError>
    requires { is_within range snapshot.now.state.now ≡ true }
    ensures { IfOk result
        (λ pieces. text_left pieces ≡ load_text snapshot.now (first_of range) (end_of range snapshot.now.state.now)) }
{
    let to = range.end(snapshot.now());
    let load = load_pieces(alloc, snapshot, range.first(), to)?;
    Ok(ReportPieces::Table(TablePieces::Load(load)))
}
