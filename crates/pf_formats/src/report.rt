ghost use Rattle.std.specs.Prelude.{◌≡◌, None, IfOk};
ghost use Rattle.pf_vocabulary.specs.Options.Formats.{range_fault};
ghost use Rattle.pf_formats.specs.Left.{text_left};
ghost use Rattle.pf_formats.specs.Report.{report_text};

use crate::document_reports::{code_of, full_line, json_line, page_of, script_of, trace_of};
use crate::ranged_reports::{chart_of, load_of, picture_of, quanta_of, schedule_of, windows_of};
use crate::report_pieces::ReportPieces;
use crate::table_reports::{
    denials_of, events_of, jobs_of, lags_of, misses_of, processors_of, stats_of, tables_of,
};
use pf_desk::snapshot::Snapshot;
use pf_full::refusal::Refusal;
use pf_text::pieces::Whole;
use pf_vocabulary::names::titles::Titles;
use pf_vocabulary::options::format::Format;
use std::alloc::{AllocError, Global};

/// What stands after all replies in a format, in pieces. The format can be shown of the slots stepped, `every` is the distance
/// of checkpoints in slots, and of a script of version 1 or 2 there are no titles. Of the refused records `full` and `html` alone
/// tell.
///
/// # Errors
///
/// Where memory is refused.
#[tactic(auto, unfolding(crate::specs::Report::report_text))]
pub fn report_pieces<'a>(
    alloc: Global,
    snapshot: &'a Snapshot,
    every: u64,
    format: Format,
    titles: &'a Titles,
    refusals: Vec<Refusal>,
) -> Result<ReportPieces<'a>, AllocError>
    requires { range_fault format snapshot.now.state.now ≡ None }
    ensures { IfOk result (λ pieces. text_left pieces ≡ report_text format every snapshot.now titles.now refusals.items) }
{
    // Each call hands over what it made or that memory was refused: so no kind of pieces is dropped here.
    match format {
        Format::Schedule(range) => schedule_of(alloc, snapshot, range),
        Format::Tables => tables_of(alloc, snapshot, titles),
        Format::Json | Format::Report => json_line(alloc, snapshot, titles),
        Format::Replies => Ok(ReportPieces::Whole(Whole::new(Vec::new(alloc)))),
        Format::Lags => lags_of(alloc, snapshot, titles),
        Format::Misses => misses_of(alloc, snapshot),
        Format::Denials => denials_of(alloc, snapshot),
        Format::Events => events_of(alloc, snapshot),
        Format::Script => script_of(alloc, snapshot, every, titles),
        Format::Processors => processors_of(alloc, snapshot),
        Format::Stats => stats_of(alloc, snapshot, titles),
        Format::Chart(range) => chart_of(alloc, snapshot, titles, range),
        Format::Svg(range, look) => picture_of(alloc, snapshot, titles, range, &look),
        Format::Quanta(range) => quanta_of(alloc, snapshot, range),
        Format::Windows(range) => windows_of(alloc, snapshot, titles, range),
        Format::Jobs => jobs_of(alloc, snapshot, titles),
        Format::Load(range) => load_of(alloc, snapshot, range),
        Format::Trace => trace_of(alloc, snapshot, titles),
        Format::C => code_of(alloc, snapshot, titles),
        Format::Full => full_line(alloc, snapshot, every, titles, refusals),
        Format::Html => page_of(alloc, snapshot, every, titles, refusals),
    }
}
